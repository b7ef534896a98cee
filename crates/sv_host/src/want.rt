//! A want of another node.

ghost use Rattle.std.specs.Prelude.{◌≡◌};
ghost use Rattle.sv_model.specs.Keys.{IsKey, IsNode};

use sv_model::{Input, Key, Packet};

/// A want of another node.
#[derive(Clone, Copy, Debug, PartialEq, Eq)]
pub struct Want {
    pub from: u8,
    to: u8,
    pub key: Key,
    boot: u64,
    want: u64,
    ghost inside: { IsNode from × IsNode to × IsKey key },
}

impl Want {
    ghost use Rattle.sv_model.specs.Ranges.{IsInput};
    ghost use Rattle.sv_host.specs.Held.{input_of, IsWantOf};

    /// That of an input; none where it is something else.
    pub fn of(input: &Input) -> Option<Want>
        requires { IsInput input.now }
        ensures { IsWantOf input.now result }
    {
        match input {
            Input::Packet(
                Packet::Want {
                    from,
                    to,
                    key,
                    boot,
                    want,
                },
            ) => Some(Want {
                from: *from,
                to: *to,
                key: *key,
                boot: *boot,
                want: *want,
            }),
            _ => None,
        }
    }

    /// As an input of a node.
    pub fn input(self) -> Input
        ensures input { result ≡ input_of self }
        ensures within { IsInput result }
    {
        Input::Packet(Packet::Want {
            from: self.from,
            to: self.to,
            key: self.key,
            boot: self.boot,
            want: self.want,
        })
    }
}
