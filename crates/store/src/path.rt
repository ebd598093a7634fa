// A climb as an iterator: from an environment up to another on its path, which is left out.
use crate::records::parent_of;

#[derive(Drop)]
pub(crate) struct Way<'a> {
    s: &'a [u8],
    at: u16,
    end: u16,
}

impl<'a> Way<'a> {
    ghost use Rattle.std.specs.Prelude.{◌≡◌};

    pub(crate) fn new(s: &'a [u8], from: u16, end: u16) -> Way<'a>
        ensures { (result.s.now ≡ s.now) × (result.at ≡ from) × (result.end ≡ end) }
    {
        Way { s, at: from, end }
    }
}

impl<'a> Iterator for Way<'a> {
    ghost use Rattle.store.specs.Climbs.{Climbs, Gives, ahead};

    type Item = u16;

    ghost can_next = { Climbs };

    ghost next_gives = { Gives };

    ghost remaining = { ahead };

    fn next(&mut self) -> Option<u16> {
        if self.at == self.end {
            return None;
        }
        let n = self.at;
        self.at = parent_of(self.s, n);
        Some(n)
    }
}
