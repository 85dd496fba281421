// The names of a session in its bytes: the fixed ones, and then the listed ones past question 2.
#![tactic(auto)]

ghost use Rattle.std.specs.Prelude.{◌≡◌, ◌≤◌, length, get_or, take};
ghost use Rattle.definition.specs.Names.{same_name};
ghost use Rattle.session.specs.Words.{whole, fixed_bytes, name_bytes, session_names_fit};
ghost use Rattle.session_names.specs.Listing.{Listing};

use name_index::NameIndex;
use session::layout;
use session::lent::LentSession;
use session_rows::number_at;
use space::NameSpace;

pub mod space;

// Do the bytes begin with the fixed names?
fn is_fixed(bytes: &[u8]) -> bool
    requires { 168 ≤ length bytes.now }
    ensures { result ≡ same_name (take 168 bytes.now) fixed_bytes }
{
    names::same_name(&bytes[..layout::FIXED_BYTES], &names::FIXED)
}

// Are the names the fixed ones and then a list past question 2, of as many as the session says? The listed ones with their index, if so.
pub fn read_names<'a>(session: LentSession<'a>, space: NameSpace<'a>) -> Option<NameIndex<'a>>
    requires { (get_or session.words.now 4 0 ≤ 32768) × (32936 ≤ length session.bytes.now) }
    ensures { Listing (session_names_fit whole session.entry.words.now session.entry.bytes.now)
        (name_bytes whole session.entry.words.now session.entry.bytes.now) result }
{
    let NameSpace { starts, index } = space;
    if !is_fixed(session.bytes) {
        return None;
    }
    let end = layout::FIXED_BYTES + number_at(session.words, layout::NAME_BYTES);
    let list = NameIndex::write(&session.bytes[layout::FIXED_BYTES..end], starts, index)?;
    if list.listed.count() != number_at(session.words, layout::NAMES) {
        return None;
    }
    Some(list)
}
