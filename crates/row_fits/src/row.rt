// One row of a sheet: what question 3 asks of it when the pass reaches it, and what it tells of its next row and first child.
ghost use Rattle.std.specs.Prelude.{true, false, ◌≡◌, not, ◌&&◌, ◌||◌, ◌+◌, ◌-◌, eqb, leb, ltb};
ghost use Rattle.ast.specs.Kind.{kind_number};
ghost use Rattle.definition.specs.Sheet.{kind, next, rows, is};
ghost use Rattle.definition.specs.Shape.{holds as holds_rule};
ghost use Rattle.shapes.specs.Numbers.{rule_number};
ghost use Rattle.shapes.specs.States.{entry_of, kind_table, rule_at};
ghost use Rattle.row_fits.specs.Pass.{row_in, entry_in, columns_ok, plain_ok, function_ok, state_after, ends_in, ends_ok, new_ok, row_asked, row_ok};
ghost use Rattle.row_fits.specs.Pass.{put_entry, note_next, note_child, note_own, note_declared, note_row, unit_here, fun_inside, class_here};
ghost use Rattle.row_fits.specs.Pass.{child_entry, next_entry};
ghost use Rattle.row_fits.specs.Reading.{number_or_one, words_of, ReadsRow};

use crate::known;
use ast::kind::Kind;
use ast::{column, flag, limit};
use shapes::rule::Rule;
use shapes::{may_end, next_state, rule_a, rule_b, sort_of, start_of};
use words::{is_kind, kind_at, put, word};

// The words of a row that are asked about.
#[derive(Clone, Copy)]
pub struct Row {
    // None: its number is no kind's. Such a row is told as any other, since it is the child list that does not fit.
    pub kind: Option<Kind>,
    pub next: u32,
    pub child: u32,
    pub file: u32,
    pub a: u32,
    pub b: u32,
}

// What the table says of a row.
#[derive(Clone, Copy)]
pub struct Entry {
    pub parent: u32,
    pub depth: u32,
    pub unit: u32,
    pub fun: u32,
    pub class: u32,
    pub state: u32,
}

// Is `value` a row of a kind?
fn is_row(sheet: &[u32], kind: Kind, value: u32) -> bool
    ensures { result ≡ (ltb value (rows sheet.now) && is sheet.now (kind_number kind) value) }
{
    (value as usize) < sheet.len() / 8 && is_kind(sheet, value, kind)
}

// Is `value` a name's number, where `last` is the last?
fn is_name(last: u32, value: u32) -> bool
    ensures { result ≡ (leb 1 value && leb value last) }
{
    (1..=last).contains(&value)
}

// Is `value` a let's mode: 0, 1, or 2 + g for a global g below `start`?
fn is_mode(start: u32, value: u32) -> bool
    ensures { result ≡ (leb value 1 || ltb (value - 2) start) }
{
    value <= flag::MUTABLE || value - flag::FIRST_CONSTANT < start
}

// Does `value` fit a rule of columns, where `last` is the last name?
#[inline(always)]
fn holds(sheet: &[u32], last: u32, rule: Rule, value: u32) -> bool
    ensures { result ≡ holds_rule sheet.now last (rule_at (rule_number rule)) value }
{
    match rule {
        Rule::Zero => value <= 0,
        Rule::Any => true,
        Rule::Bit => value <= 1,
        Rule::Name => is_name(last, value),
        Rule::NameOrZero => value == 0 || is_name(last, value),
        Rule::Globals => value <= limit::GLOBALS,
        Rule::UnitRow => is_row(sheet, Kind::Unit, value),
        Rule::FunctionRow => is_row(sheet, Kind::Function, value),
        Rule::ClassRow => is_row(sheet, Kind::Class, value),
        Rule::ClassRowOrZero => value == 0 || is_row(sheet, Kind::Class, value),
        Rule::FunctionRowOrZero => value == 0 || is_row(sheet, Kind::Function, value),
        Rule::Global => value < word(sheet, 0, column::A),
        Rule::Mode => is_mode(word(sheet, 0, column::A), value),
    }
}

// The state of a child list after a child of a kind, in state `state`.
#[inline(always)]
#[tactic(auto, unfolding(crate::specs::Pass::state_after))]
fn state_after(state: u32, kind: Option<Kind>) -> u32
    ensures { result ≡ state_after state (number_or_one kind) }
{
    match kind {
        Some(kind) => next_state(state, sort_of(kind)),
        None => 0,
    }
}

// The state in which the child list of a kind starts. No list fits state 0.
fn state_at_start(kind: Option<Kind>) -> u32
    ensures { result ≡ entry_of kind_table (number_or_one kind) 1 }
{
    kind.map_or(0, start_of)
}

impl Row {
    #[inline(always)]
    fn read(sheet: &[u32], row: u32) -> Row
        ensures { ReadsRow sheet.now row result }
    {
        Row {
            kind: kind_at(sheet, row).ok(),
            next: word(sheet, row, column::NEXT),
            child: word(sheet, row, column::CHILD),
            file: word(sheet, row, column::FILE),
            a: word(sheet, row, column::A),
            b: word(sheet, row, column::B),
        }
    }

    fn is(self, kind: Kind) -> bool
        ensures { result ≡ eqb (number_or_one self.kind) (kind_number kind) }
    {
        self.kind == Some(kind)
    }

    #[tactic(auto, unfolding(crate::specs::Pass::columns_ok))]
    fn columns_fit(self, sheet: &[u32], last: u32) -> bool
        ensures { result ≡ columns_ok sheet.now last (number_or_one self.kind) self.a self.b }
    {
        holds(sheet, last, self.kind.map_or(Rule::Zero, rule_a), self.a)
            && holds(sheet, last, self.kind.map_or(Rule::Zero, rule_b), self.b)
    }

    #[tactic(auto, unfolding(crate::specs::Pass::plain_ok))]
    fn plain_fits(self, sheet: &[u32]) -> bool
        ensures { result ≡ plain_ok sheet.now (words_of self) }
    {
        self.file < limit::FILES
            && (!self.is(Kind::Let)
                || self.b < flag::FIRST_CONSTANT
                || !is_kind(sheet, self.child, Kind::Literal))
    }

    // A unit's function has a block and nothing else.
    fn unit_function_fits(self, sheet: &[u32]) -> bool
        ensures { result ≡ (eqb self.b 1 && (eqb (kind sheet.now self.child) 25 && eqb (next sheet.now self.child) 0)) }
    {
        self.b == flag::UNIT_FUNCTION
            && is_kind(sheet, self.child, Kind::Block)
            && word(sheet, self.child, column::NEXT) == 0
    }

    #[tactic(auto, unfolding(crate::specs::Pass::function_ok))]
    fn function_fits(self, sheet: &[u32], parent: u32) -> bool
        ensures { result ≡ function_ok sheet.now (words_of self) parent }
    {
        if !self.is(Kind::Function) {
            true
        } else if is_kind(sheet, parent, Kind::Unit) {
            self.unit_function_fits(sheet)
        } else {
            self.b == 0 && (!is_kind(sheet, parent, Kind::Class) || self.a != 0)
        }
    }

    // May the child list of row `row` be empty if it is, and may the list that the row is in, with state `state` before it, end after
    // it if it does? Row 0 is in none.
    #[tactic(auto, unfolding(crate::specs::Pass::ends_ok, crate::specs::Pass::ends_in))]
    fn ends_fit(self, row: u32, state: u32) -> bool
        ensures { result ≡ ends_ok (words_of self) row state }
    {
        (self.child != 0 || may_end(state_at_start(self.kind)))
            && (row == 0 || self.next != 0 || may_end(state_after(state, self.kind)))
    }

    #[tactic(auto, unfolding(crate::specs::Pass::new_ok))]
    fn first_declared(self, table: &[u32]) -> bool
        ensures { result ≡ new_ok table.now (words_of self) }
    {
        !self.is(Kind::ClassDeclaration) || word(table, self.a, known::DECLARED) == 0
    }

    // What question 3 asks of `row`, which has these words, the parent `parent` and the state `state` of its list before it.
    #[tactic(auto, unfolding(crate::specs::Pass::row_asked))]
    fn is_as_asked(
        self,
        sheet: &[u32],
        last: u32,
        row: u32,
        parent: u32,
        state: u32,
        table: &[u32],
    ) -> bool
        ensures { result ≡ row_asked sheet.now last (words_of self) row parent state table.now }
    {
        self.columns_fit(sheet, last)
            && self.plain_fits(sheet)
            && self.function_fits(sheet, parent)
            && self.ends_fit(row, state)
            && self.first_declared(table)
    }

    // The same when the pass reaches `row`, which has these words.
    fn fits(self, sheet: &[u32], last: u32, row: u32, table: &[u32]) -> bool
        requires { ReadsRow sheet.now row self }
        ensures { result ≡ row_ok sheet.now last row table.now }
    {
        let parent = word(table, row, known::PARENT);
        let state = word(table, row, known::STATE);
        self.is_as_asked(sheet, last, row, parent, state, table)
    }

    // What `row`, which has these words, tells: the entries of its next row and first child, its own unit and class, the class that it declares.
    fn note(self, sheet: &[u32], row: u32, table: &mut [u32])
        requires { ReadsRow sheet.now row self }
        ensures { table.new ≡ note_row sheet.now row table.old }
    {
        let e = Entry::get(table, row);
        e.note_next(self, table);
        e.note_child(sheet, row, self, table);
        e.note_own(sheet, row, self, table);
        note_declared(row, self, table);
    }
}

impl Entry {
    fn get(table: &[u32], row: u32) -> Entry
        ensures { result ≡ entry_in table.now row }
    {
        Entry {
            parent: word(table, row, known::PARENT),
            depth: word(table, row, known::DEPTH),
            unit: word(table, row, known::UNIT),
            fun: word(table, row, known::FUNCTION),
            class: word(table, row, known::CLASS),
            state: word(table, row, known::STATE),
        }
    }

    #[tactic(auto, unfolding(crate::specs::Pass::put_entry))]
    fn put(self, table: &mut [u32], row: u32)
        ensures { table.new ≡ put_entry table.old row self }
    {
        put(table, row, known::PARENT, self.parent);
        put(table, row, known::DEPTH, self.depth);
        put(table, row, known::UNIT, self.unit);
        put(table, row, known::FUNCTION, self.fun);
        put(table, row, known::CLASS, self.class);
        put(table, row, known::STATE, self.state);
    }

    // The unit of `row` itself, whose entry this is.
    fn unit_at(self, row: u32, w: Row) -> u32
        ensures { result ≡ unit_here row (number_or_one w.kind) self }
    {
        if w.is(Kind::Unit) { row } else { self.unit }
    }

    // The innermost function around what `row` holds.
    fn fun_inside(self, row: u32, w: Row) -> u32
        ensures { result ≡ fun_inside row (number_or_one w.kind) self }
    {
        if w.is(Kind::Function) { row } else { self.fun }
    }

    // The class whose method the row is or lies in.
    fn class_at(self, sheet: &[u32], w: Row) -> u32
        ensures { result ≡ class_here sheet.now (number_or_one w.kind) self }
    {
        if w.is(Kind::Function) && is_kind(sheet, self.parent, Kind::Class) {
            self.parent
        } else {
            self.class
        }
    }

    // The entry of the first child of `row`.
    fn of_child(self, sheet: &[u32], row: u32, w: Row) -> Entry
        ensures { result ≡ child_entry sheet.now row (number_or_one w.kind) self }
    {
        Entry {
            parent: row,
            depth: self.depth.saturating_add(1),
            unit: self.unit_at(row, w),
            fun: self.fun_inside(row, w),
            class: self.class_at(sheet, w),
            state: state_at_start(w.kind),
        }
    }

    // The entry of the next row.
    fn of_next(self, w: Row) -> Entry
        ensures { result ≡ next_entry (number_or_one w.kind) self }
    {
        Entry {
            parent: self.parent,
            depth: self.depth,
            unit: self.unit,
            fun: self.fun,
            class: self.class,
            state: state_after(self.state, w.kind),
        }
    }

    #[tactic(auto, unfolding(crate::specs::Pass::note_next))]
    fn note_next(self, w: Row, table: &mut [u32])
        ensures { table.new ≡ note_next w.next (number_or_one w.kind) self table.old }
    {
        if w.next != 0 {
            self.of_next(w).put(table, w.next);
        }
    }

    #[tactic(auto, unfolding(crate::specs::Pass::note_child))]
    fn note_child(self, sheet: &[u32], row: u32, w: Row, table: &mut [u32])
        ensures { table.new ≡ note_child sheet.now row (words_of w) self table.old }
    {
        if w.child != 0 {
            self.of_child(sheet, row, w).put(table, w.child);
        }
    }

    #[tactic(auto, unfolding(crate::specs::Pass::note_own))]
    fn note_own(self, sheet: &[u32], row: u32, w: Row, table: &mut [u32])
        ensures { table.new ≡ note_own sheet.now row (number_or_one w.kind) self table.old }
    {
        put(table, row, known::UNIT, self.unit_at(row, w));
        put(table, row, known::CLASS, self.class_at(sheet, w));
    }
}

#[tactic(auto, unfolding(crate::specs::Pass::note_declared))]
fn note_declared(row: u32, w: Row, table: &mut [u32])
    ensures { table.new ≡ note_declared row (words_of w) table.old }
{
    if w.is(Kind::ClassDeclaration) {
        put(table, w.a, known::DECLARED, row);
    }
}

// Does `row` fit when the pass reaches it? If it does, the table has what it tells, else it stays as it was. The row is read once for both.
pub fn pass_row(sheet: &[u32], last: u32, row: u32, table: &mut [u32]) -> bool
    ensures value { result ≡ row_ok sheet.now last row table.old }
    ensures table_after { result ≡ true → table.new ≡ note_row sheet.now row table.old }
    ensures kept { result ≡ false → table.new ≡ table.old }
{
    let w = Row::read(sheet, row);
    let fits = w.fits(sheet, last, row, table);
    if fits {
        w.note(sheet, row, table);
    }
    fits
}
