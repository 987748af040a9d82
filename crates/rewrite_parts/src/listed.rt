// A list of an instruction or of a type, as it is read. (It stands in this crate since `find_init`, the lowest that is given one, does.)
ghost use Rattle.std.specs.Prelude.{◌≡◌, ◌+◌, get_or};
ghost use Rattle.rewrite_parts.specs.Rows.{Addressable};

// So many things that stand one behind another in these bytes, from a place on: the values or the inits of a build, or the names of a
// type.
#[derive(Clone, Copy)]
pub struct Listed<'a> {
    pub bytes: &'a [u8],
    pub at: usize,
    pub count: u8,
    ghost low: { Addressable at },
}

impl<'a> Listed<'a> {
    // As many as the byte at a place says, from behind it on.
    pub fn behind(bytes: &'a [u8], at: usize) -> Listed<'a>
        requires { Addressable (at + 1) }
        ensures bytes { result.bytes.now ≡ bytes.now }
        ensures place { result.at ≡ at + 1 }
        ensures many { result.count ≡ get_or bytes.now at 0 }
    {
        Listed {
            bytes,
            at: at + 1,
            count: bytes_wire::byte_at(bytes, at),
        }
    }
}
