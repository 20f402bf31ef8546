//! The members of a class, which have numbers that follow one another, by their names and descriptors.

ghost use Rattle.std.specs.Prelude.{◌≡◌, find, map};
ghost use Rattle.vx_java.specs.MemberNumbers.{is_past, numbers_between};
ghost use Rattle.vx_link.specs.Members.{has_signature};

use vx_link::{Member, MemberList, Sought};

/// The first number from one on through another that is past those of so many members.
fn first_past(count: usize, from: u32, last: u32) -> Option<u32>
    ensures { result ≡ find (is_past count) (numbers_between from last) }
{
    if from <= last && count <= last as usize {
        Some(from.max(count as u32))
    } else {
        None
    }
}

/// The first number from one on through another whose member has a name and a descriptor. Past the last member these are empty.
pub fn first_between<M: Member>(
    members: &MemberList<M>,
    sought: &Sought,
    from: u32,
    last: u32,
) -> Option<u32>
    ensures { result ≡ find (has_signature (map M.signature members.now) sought.now.0 sought.now.1) (numbers_between from last) }
{
    match members.first(sought, from as u64, last as u64) {
        Some(found) => {
            if found <= last as u64 {
                Some(found as u32)
            } else {
                None
            }
        }
        None => {
            if sought.name().is_empty() && sought.descriptor().is_empty() {
                first_past(members.len(), from, last)
            } else {
                None
            }
        }
    }
}
