// Answers as numbers, which C reads.
ghost use Rattle.std.specs.Prelude.{◌≡◌};
ghost use Rattle.c_interface.specs.Replies.{reply_of};

use clocks::answers::Asked;

// What C is told of a position. An enum does not cross to C, so its kind is a number. time: 0 where the kind has no time.
#[repr(C)]
#[derive(Clone, Copy)]
pub struct Reply {
    pub kind: u32,
    pub time: u64,
}

impl From<Asked> for Reply {
    ghost from_gives = { λ asked reply. reply ≡ reply_of asked };

    fn from(asked: Asked) -> Self {
        match asked {
            Asked::At(time) => Reply { kind: 1, time },
            Asked::After(time) => Reply { kind: 2, time },
            Asked::Never => Reply { kind: 3, time: 0 },
            Asked::Many => Reply { kind: 4, time: 0 },
            Asked::Few => Reply { kind: 5, time: 0 },
            Asked::NoWork => Reply { kind: 6, time: 0 },
            Asked::NoPlace => Reply { kind: 7, time: 0 },
        }
    }
}
