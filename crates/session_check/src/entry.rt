// The declarations, classes and members of one entry of a session, as question 23 asks about them.
ghost use Rattle.std.specs.Prelude.{◌≡◌, true, [], suc, ◌+◌, ◌-◌, ◌*◌, ◌^◌, ◌<◌, ◌≤◌, eqb, get_or, set};
ghost use Rattle.definition.specs.Basics.{when◌then◌else◌, any, all, from};
ghost use Rattle.definition.specs.Outside.{is_recorded, core};
ghost use Rattle.session.specs.Words.{whole, part_of, fields_in, methods_in, members_before, is_class_up_to, laid_fits};
ghost use Rattle.session_rows.specs.Rows.{after, number_of, Ordered};
ghost use Rattle.session_check.specs.Clauses.{means_right, is_fresh, Under, names_apart, method_right, methods_right, last_name, members_right, parent_right};
ghost use Rattle.session_check.specs.Clauses.{class_right, classes_right, entry_right};

use ast::code::Code;
use ast::name;
use session::layout;
use session::layout::MARKS;
use session_rows::{
    class_number, count, count_at, count_before, is_function_of, is_function_up_to, is_name,
    is_within, number_at,
};

// Is x a name up to `last` without the mark? It gets it then, and only then.
#[tactic(auto, unfolding(crate::specs::Clauses::is_fresh))]
fn mark_name(x: usize, last: usize, mark: u32, marks: &mut [u32; MARKS]) -> bool
    requires { last < 1049 }
    ensures { (result ≡ is_fresh last mark marks.old x)
        × (marks.new ≡ (when result then set marks.old x mark else marks.old)) }
{
    if !is_name(x, last) || marks[x] == mark {
        return false;
    }
    marks[x] = mark;
    true
}

// Is a class of the core one that has a record?
fn is_core_class(number: usize) -> bool
    ensures { result ≡ is_recorded core number }
{
    number == ast::UIEVENT_ID.0 as usize
        || number == ast::AUDIO_NEEDED_ID.0 as usize
        || number == ast::AUDIO_DATA_ID.0 as usize
}

// How many members class i has.
fn member_count(words: &[u32], i: usize) -> usize
    requires { i < 1024 }
    ensures { (result ≡ fields_in whole words.now [] i + methods_in whole words.now [] i) × (result < 2 ^ 33) }
{
    let at = layout::CLASS_ROWS + layout::CLASS_WORDS * i;
    number_at(words, at + layout::FIELDS) + number_at(words, at + layout::METHODS)
}

// An entry of a session whose counts and class numbers are in order.
#[derive(Clone, Copy)]
pub struct Entry<'s> {
    pub words: &'s [u32],
    pub number: usize,
    ghost ordered: { Ordered words.now },
    ghost there: { number < get_or words.now 1 0 },
}

impl Entry<'_> {
    // Is there a class of a number among those from `first` on and below `end`? Numbers rise, so that one look leaves half of the classes.
    // A loop of its own: the library's search by halving takes a slice of numbers, and these stand five words apart.
    fn has_class(self, first: usize, end: usize, number: usize) -> bool
        requires { end ≤ get_or self.words.now 6 0 }
        ensures { result ≡ any (λ i. eqb (number_of self.entry.words.now i) number) (from first (end - first)) }
    {
        let mut low = first;
        let mut high = end;
        while low < high {
            let middle = low + (high - low) / 2;
            let here = class_number(self.words, middle);
            if here == number {
                return true;
            }
            if here < number {
                low = middle + 1;
                continue;
            }
            high = middle;
        }
        false
    }

    // Is what a declaration means there: a function or class of the entry, or a global below the count? `code` is a word, which may be no code.
    #[tactic(auto, unfolding(crate::specs::Clauses::means_right), using(crate::proofs::ClauseLaws::means_nothing))]
    fn means_fit(self, code: u32, x: usize, mutable: usize) -> bool
        ensures { result ≡ means_right self.entry.words.now self.entry.number code x mutable }
    {
        let Ok(code) = Code::try_from(code) else {
            return false;
        };
        match code {
            Code::Fun => is_function_of(self.number, x) && mutable == 0,
            Code::Class => {
                let first = count_before(self.words, self.number, count::CLASSES);
                let end = count_at(self.words, self.number, count::CLASSES);
                self.has_class(first, end, x) && mutable == 0
            }
            Code::Global => x < number_at(self.words, layout::GLOBALS) && mutable <= 1,
            _ => false,
        }
    }

    // The number of the last name of the entries up to this one.
    fn last_name(self) -> usize
        ensures { (result ≡ last_name self.entry.words.now self.entry.number) × (result < 1049) }
    {
        name::LAST_FIXED + count_at(self.words, self.number, count::NAMES)
    }

    // Is declaration i as it should be?
    #[tactic(auto, using(crate::proofs::ClauseLaws::laid_yes))]
    fn declaration_fits(self, i: usize) -> bool
        requires { i < 2 ^ 32 }
        ensures { result ≡ laid_fits whole self.entry.words.now [] self.entry.number i }
    {
        let at = layout::DECLARATION_ROWS + layout::DECLARATION_WORDS * i;
        is_name(number_at(self.words, at), self.last_name())
            && self.means_fit(
                words::word_at(self.words, at + layout::CODE),
                number_at(self.words, at + layout::NUMBER),
                number_at(self.words, at + layout::MUTABLE),
            )
    }

    // Are all its declarations?
    fn declarations_fit(self) -> bool
        ensures { result ≡ all (laid_fits whole self.entry.words.now [] self.entry.number) (part_of whole self.entry.words.now [] self.entry.number 2) }
    {
        let first = count_before(self.words, self.number, count::DECLARATIONS);
        let end = count_at(self.words, self.number, count::DECLARATIONS);
        (first..end).all(|i| self.declaration_fits(i))
    }

    // Are the names of the members from `first` on and below `end` names up to its last, and no two the same? Each gets the mark, which none has yet.
    // By two ends: of a loop over a range that was handed in, a proof knows only the items given so far. The loop ends early, as it writes marks on the way.
    fn names_apart(self, first: usize, end: usize, mark: u32, marks: &mut [u32; MARKS]) -> bool
        requires { (first ≤ end) × (end < 2 ^ 62) × Under marks.old mark }
        ensures { (result ≡ names_apart self.entry.words.now (last_name self.entry.words.now self.entry.number) first end) × Under marks.new (suc mark) }
    {
        let last = self.last_name();
        for j in first..end {
            let name = number_at(self.words, layout::MEMBER_ROWS + layout::MEMBER_WORDS * j);
            if !mark_name(name, last, mark, marks) {
                return false;
            }
        }
        true
    }

    // Is member j a function up to it, of few enough parameters?
    #[tactic(auto, unfolding(crate::specs::Clauses::method_right))]
    fn method_fits(self, j: usize) -> bool
        requires { j < 2 ^ 62 }
        ensures { result ≡ method_right self.entry.words.now self.entry.number j }
    {
        let at = layout::MEMBER_ROWS + layout::MEMBER_WORDS * j;
        is_function_up_to(self.number, number_at(self.words, at + layout::FUNCTION))
            && is_within(self.words, at + layout::PARAMETERS, layout::MOST_PARAMETERS)
    }

    // The same of those from `first` on and below `end`.
    fn methods_fit(self, first: usize, end: usize) -> bool
        requires { (first ≤ end) × (end < 2 ^ 62) }
        ensures { result ≡ methods_right self.entry.words.now self.entry.number first end }
    {
        (first..end).all(|j| self.method_fits(j))
    }

    // Are the members of class i as they should be, the first of them `first`? Fields get one mark, methods another.
    #[tactic(auto, unfolding(crate::specs::Clauses::members_right), using(crate::proofs::MarkLaws::under_le))]
    fn members_fit(self, i: usize, first: usize, marks: &mut [u32; MARKS]) -> bool
        requires { (i < 1024) × (first < 2 ^ 60) × Under marks.old (2 * i + 1) }
        ensures { (result ≡ members_right self.entry.words.now self.entry.number i first) × Under marks.new (2 * i + 3) }
    {
        let at = layout::CLASS_ROWS + layout::CLASS_WORDS * i;
        let methods = first + number_at(self.words, at + layout::FIELDS);
        let end = methods + number_at(self.words, at + layout::METHODS);
        let mark = 2 * (i as u32) + 1;
        self.names_apart(first, methods, mark, marks)
            && self.names_apart(methods, end, mark + 1, marks)
            && self.methods_fit(methods, end)
    }

    // Is it a class with a record in the session up to the entry, or one of the core's with a record?
    fn is_class(self, number: usize) -> bool
        ensures { result ≡ is_class_up_to whole self.entry.words.now [] self.entry.number number }
    {
        let end = count_at(self.words, self.number, count::CLASSES);
        self.has_class(0, end, number) || is_core_class(number)
    }

    // Is the parent of class i none, or another class of the entries up to this one?
    #[tactic(auto, unfolding(crate::specs::Clauses::parent_right))]
    fn parent_fits(self, i: usize) -> bool
        requires { i < 1024 }
        ensures { result ≡ parent_right self.entry.words.now self.entry.number i }
    {
        let parent = number_at(
            self.words,
            layout::CLASS_ROWS + layout::CLASS_WORDS * i + layout::PARENT,
        );
        parent == 0 || self.is_class(parent) && parent != class_number(self.words, i)
    }

    // Is its class i, but for the number, as it should be? `first` is the first of its members.
    #[tactic(auto, unfolding(crate::specs::Clauses::class_right), using(crate::proofs::MarkLaws::under_le))]
    fn class_fits(self, i: usize, first: usize, marks: &mut [u32; MARKS]) -> bool
        requires { (i < 1024) × (first < 2 ^ 60) × (first ≡ members_before whole self.words.now [] i) × Under marks.old (2 * i + 1) }
        ensures { (result ≡ class_right self.entry.words.now self.entry.number i) × Under marks.new (2 * i + 3) }
    {
        let name = number_at(
            self.words,
            layout::CLASS_ROWS + layout::CLASS_WORDS * i + layout::CLASS_NAME,
        );
        is_name(name, self.last_name()) && self.parent_fits(i) && self.members_fit(i, first, marks)
    }

    // Are all its classes, and are its members theirs? Those of the entries before it are. The loop writes marks and counts members on the way.
    fn classes_fit(self, marks: &mut [u32; MARKS]) -> bool
        requires { (members_before whole self.words.now [] (after self.words.now self.number 3) ≡ after self.words.now self.number 4)
            × Under marks.old (2 * after self.words.now self.number 3 + 1) }
        ensures { (result ≡ classes_right self.entry.words.now self.entry.number)
            × (result ≡ true → Under marks.new (2 * after self.entry.words.now (suc self.entry.number) 3 + 1)) }
    {
        let first = count_before(self.words, self.number, count::CLASSES);
        let end = count_at(self.words, self.number, count::CLASSES);
        let mut member = count_before(self.words, self.number, count::MEMBERS);
        for i in first..end {
            if !self.class_fits(i, member, marks) {
                return false;
            }
            member += member_count(self.words, i);
        }
        member == count_at(self.words, self.number, count::MEMBERS)
    }

    // Are all its declarations and classes?
    #[tactic(auto, unfolding(crate::specs::Clauses::entry_right))]
    pub fn fits(self, marks: &mut [u32; MARKS]) -> bool
        requires { (members_before whole self.words.now [] (after self.words.now self.number 3) ≡ after self.words.now self.number 4)
            × Under marks.old (2 * after self.words.now self.number 3 + 1) }
        ensures { (result ≡ entry_right self.entry.words.now self.entry.number)
            × (result ≡ true → Under marks.new (2 * after self.entry.words.now (suc self.entry.number) 3 + 1)) }
    {
        self.declarations_fit() && self.classes_fit(marks)
    }
}
