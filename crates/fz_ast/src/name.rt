//! Names and texts, kept in place: a value that is copied without memory.
ghost use Rattle.std.specs.Prelude.{◌≡◌, ◌+◌, ◌-◌, ◌≤◌, ◌<◌, ◌↔◌, ◌++◌, length, drop};
ghost use Rattle.fz_ast.specs.Kept.{IsPadded};

/// A name of at most 32 bytes.
#[derive(Clone, Copy)]
pub struct Name {
    len: u8,
    bytes: [u8; 32],
    ghost short: { len ≤ 32 },
    ghost padded: { IsPadded len bytes },
}

/// A text of at most 64 bytes.
#[derive(Clone, Copy)]
pub struct Text {
    len: u8,
    bytes: [u8; 64],
    ghost short: { len ≤ 64 },
    ghost padded: { IsPadded len bytes },
}

fn put_prefix(held: &mut [u8], bytes: &[u8])
    requires { length bytes.now ≤ length held.old }
    ensures { held.new ≡ bytes.now ++ drop (length bytes.now) held.old }
{
    held[..bytes.len()].copy_from_slice(bytes);
}

impl Name {
    ghost use Rattle.fz_ast.specs.Names.{name_of};

    /// The name of these bytes.
    pub fn new(bytes: &[u8]) -> Name
        requires { length bytes.now ≤ 32 }
        ensures { name_of result ≡ bytes.now }
    {
        let mut held = [0; 32];
        put_prefix(&mut held, bytes);
        Name {
            len: bytes.len() as u8,
            bytes: held,
        }
    }

    pub fn as_bytes(&self) -> &[u8]
        ensures { result.now ≡ name_of self.now }
    {
        &self.bytes[..self.len as usize]
    }
}

impl Text {
    ghost use Rattle.fz_ast.specs.Names.{text_of};

    /// The text of these bytes.
    pub fn new(bytes: &[u8]) -> Text
        requires { length bytes.now ≤ 64 }
        ensures { text_of result ≡ bytes.now }
    {
        let mut held = [0; 64];
        put_prefix(&mut held, bytes);
        Text {
            len: bytes.len() as u8,
            bytes: held,
        }
    }

    pub fn as_bytes(&self) -> &[u8]
        ensures { result.now ≡ text_of self.now }
    {
        &self.bytes[..self.len as usize]
    }
}
