//! Names that a reply can hold.

ghost use Rattle.std.specs.Prelude.{IsTrue};
ghost use Rattle.wire_lines.specs.Name.{is_name};

/// A name that a reply can hold: at most 32 bytes, none of them a space or an LF.
#[derive(Clone, Copy)]
pub struct Name<'a> {
    pub bytes: &'a [u8],
    pub ghost is_name: { IsTrue (is_name bytes.now) },
}
