/// A label of a `case`: the values from one to another, both taken. A single value has itself at both ends. Where the low end is
/// above the high one, no value fits.
#[derive(Drop)]
pub struct Label<T> {
    pub low: T,
    pub high: T,
}
