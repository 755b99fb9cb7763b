ghost use Rattle.std.specs.Prelude.{◌+◌, ◌^◌, ◌<◌, length};

/// A print that waits for a reply: its request's tag, how many bytes the requests before it wrote, how many this one is to write,
/// and the bytes behind those.
#[derive(Drop)]
pub struct Writing {
    pub tag: u64,
    pub written: u64,
    pub asked: u32,
    pub left: Vec<u8>,
    ghost fits: { written + asked + length left.items < 2 ^ 64 },
}

/// A request: the link that it goes over, and the bytes of its message.
#[derive(Drop)]
pub struct Request {
    pub link: u32,
    pub frame: Vec<u8>,
}
