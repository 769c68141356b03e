// A run of regular characters as it is read: its bytes, as long as they are few enough for a token.
ghost use Rattle.std.specs.Prelude.{◌≡◌, [], Some};
ghost use Rattle.std.specs.Option.{option_copied};
ghost use Rattle.scanner.specs.Bytes.{ends_run};
ghost use Rattle.scanner.specs.Runs.{gather};
ghost use Rattle.scanner.specs.Gathered.{kept, so_far};

use objects::front::front;

const LONGEST_RUN: u8 = 128;

// Kept: the scratch is a constant, and no ArrayVec can be made in a constant.
#[derive(Drop)]
pub struct Run {
    bytes: [u8; 128],
    // so many bytes were gathered; none stands for more than there is room for
    used: Option<u8>,
}

// Is the byte white space or a delimiter? No run goes on over it.
#[tactic(auto, using(std::proofs::lemmas::Bool::Decides::nat_tests), unfolding(crate::specs::Bytes::ends_run))]
pub fn ends_run(byte: u8) -> bool
    ensures { result ≡ ends_run byte }
{
    matches!(
        byte,
        0 | 9
            | 10
            | 12
            | 13
            | b' '
            | b'('
            | b')'
            | b'<'
            | b'>'
            | b'['
            | b']'
            | b'{'
            | b'}'
            | b'/'
            | b'%'
    )
}

impl Run {
    pub const EMPTY: Run = Run {
        bytes: [0; 128],
        used: Some(0),
    };

    pub fn clear(&mut self)
        ensures { so_far self.new ≡ Some [] }
    {
        self.used = Some(0);
    }

    pub fn gather(&mut self, byte: u8)
        ensures { so_far self.new ≡ gather (so_far self.old) byte }
    {
        self.used = match self.used {
            Some(used) if used < LONGEST_RUN => {
                self.bytes[usize::from(used)] = byte;
                Some(used + 1)
            }
            _ => None,
        };
    }

    // The bytes gathered: the whole run, if it is not too long.
    pub fn text(&self) -> &[u8]
        ensures { result.now ≡ kept self.now }
    {
        front(&self.bytes, usize::from(self.used.unwrap_or(LONGEST_RUN)))
    }

    // The whole run, or none if it is too long.
    pub fn whole(&self) -> Option<&[u8]>
        ensures { option_copied result ≡ so_far self.now }
    {
        let used = self.used?;
        Some(front(&self.bytes, usize::from(used)))
    }
}
