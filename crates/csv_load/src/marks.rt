//! Byte order marks in front of a block.
ghost use Rattle.std.specs.Prelude.{◌≡◌};
ghost use Rattle.csv_load.specs.Records.{without_marks};

/// The block without the byte order marks at its front, as often as they stand there.
pub(crate) fn without_marks(block: &[u8]) -> &[u8]
    ensures { result.now ≡ without_marks block.now }
{
    let mut rest = block;
    'marks: while let Some(behind) = rest.strip_prefix(b"\xef\xbb\xbf") {
        rest = behind;
    }
    rest
}
