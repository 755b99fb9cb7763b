/// The numbers that an object file begins with, but for the first (dis(6), "Header").
#[derive(Clone, Copy)]
pub struct Header {
    pub flags: u32,
    /// How many bytes a stack grows by.
    pub stack: u32,
    /// How many instructions there are.
    pub code: u32,
    /// Size of the module's data in bytes.
    pub data_size: u32,
    /// How many types there are.
    pub types: u32,
    /// How many functions other modules may call.
    pub links: u32,
    pub entry_pc: u32,
    pub entry_type: u32,
}
