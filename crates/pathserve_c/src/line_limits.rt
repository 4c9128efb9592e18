//! Limits of the bytes of a line.
ghost use Rattle.std.specs.Prelude.{◌≡◌, Some};
ghost use Rattle.pathserve_c.specs.LineLimits.{limit_after, limit_with};

/// How many bytes a line may have, without its newline, and how many came of the line that has begun.
#[derive(Clone, Copy)]
pub struct LineLimit {
    /// How many bytes a line may have.
    pub most: usize,
    /// How many bytes came of the line that has begun.
    pub begun: usize,
}

impl LineLimit {
    /// The limit behind these bytes. None where a line of them has more than it may.
    pub fn after(self, bytes: &[u8]) -> Option<LineLimit>
        ensures { result ≡ limit_after self bytes.now }
    {
        let mut limit = self;
        for byte in bytes {
            limit = limit.with(*byte)?;
        }
        Some(limit)
    }

    /// The limit behind one more byte. None where the line would have more than it may.
    fn with(self, byte: u8) -> Option<LineLimit>
        ensures { result ≡ limit_with (Some self) byte }
    {
        let LineLimit { most, begun } = self;
        if byte == b'\n' {
            Some(LineLimit { most, begun: 0 })
        } else if begun < most {
            Some(LineLimit {
                most,
                begun: begun + 1,
            })
        } else {
            None
        }
    }
}
