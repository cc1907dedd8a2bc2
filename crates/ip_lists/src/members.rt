//! An iterator over the members of a list.
use crate::arrays::member_after;

/// The members of a list, in order, and `None` from then on.
#[derive(Clone, Debug, Drop)]
pub struct Members<'l> {
    pub(crate) next: &'l [u32],
    pub(crate) head: u32,
    pub(crate) place: u32,
    pub(crate) left: usize,
}

impl<'l> Iterator for Members<'l> {
    type Item = u32;

    ghost use Rattle.std.specs.Iterator.{YieldsFirst, item_count};
    ghost use Rattle.ip_lists.specs.Members.{members_left};

    ghost next_gives = { YieldsFirst members_left };

    ghost remaining = { item_count members_left };

    fn next(&mut self) -> Option<u32> {
        if self.left == 0 {
            return None;
        }
        match member_after(self.next, self.head, self.place) {
            Some(place) => {
                self.place = place;
                self.left -= 1;
                Some(place)
            }
            None => {
                self.left = 0;
                None
            }
        }
    }
}
