//! What holds of the object of every module whose code the machine can hold.

ghost use Rattle.valid_objects.specs.Writable.{ObjectIsValid};

/// Some bytes spell it.
pub fn object_is_valid()
    ensures valid { ObjectIsValid }
{}
