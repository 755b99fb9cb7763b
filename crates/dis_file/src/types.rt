ghost use Rattle.std.specs.Prelude.{◌≡◌};
ghost use Rattle.dis_file.specs.References.{marks};

use inf_text::Seq;

/// A type of an object: what a block or frame of that type holds (dis(6), "Type section").
#[derive(Drop, Debug)]
pub struct TypeDesc {
    /// Size in bytes.
    pub size: u32,
    /// One bit for each word, set where the word is a reference; the top bit of the first byte is word 0. Words past
    /// the map are plain.
    pub map: Seq<u8>,
}

impl TypeDesc {
    /// Whether this word of the type, counted from 0, is a reference.
    pub fn is_reference(&self, word: u32) -> bool
        ensures { result ≡ marks self.now.map word }
    {
        match self.map.as_slice().get((word / 8) as usize) {
            Some(byte) => (*byte >> (7 - word % 8)) & 1 == 1,
            None => false,
        }
    }
}
