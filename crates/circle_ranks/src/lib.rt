// Ranks of units: those on one circle, and on circles that share a unit, get the same rank, and every other unit that they import a lower one. This
// is Tarjan's numbering of strongly connected components, with tables in place of a recursion.
//
// The ranks only spare searches: `import_circle` looks at them before it uses them, and answers rightly whatever they are. So nothing is promised
// of them here, beside that the routines end and stay within the tables.
#![tactic(auto)]

use ast::column;
use ast::kind::Kind;
use words::{entry_at, is_kind, put, put_entry, word};

// The table of visits has eight words a row. Of unit `u` they tell its number in the order of visits, or 0;
const NUMBER: u32 = 0;

// the lowest number of a unit that is known to share a circle with it;
const LOW: u32 = 1;

// the child row that is looked at next;
const NEXT_CHILD: u32 = 2;

// and the unit from which it was visited, or 0.
const FROM: u32 = 3;

// The rows from 0 on hold in this word the units that are visited and have no rank yet, in the order of visits.
const OPEN: u32 = 4;

// Every step takes a child row, leaves a unit or looks at a row for an unvisited unit, so there are fewer than three for each of 2,048 rows.
const STEPS: u32 = 6144;

#[derive(Drop)]
struct Search<'a> {
    sheet: &'a [u32],
    ranks: &'a mut [u32],
    visits: &'a mut [u32],
    // The unit that is visited.
    unit: Option<u32>,
    // How many were visited, and how many of them have no rank yet.
    visited: u32,
    waiting: u32,
    // The last rank given.
    rank: u32,
    // The row from which an unvisited unit is looked for.
    row: u32,
}

impl Search<'_> {
    // Visits unit `u`, from the unit that is visited now.
    fn enter(&mut self, u: u32) {
        let number = self.visited.saturating_add(1);
        let child = word(self.sheet, u, column::CHILD);
        let from = self.unit.unwrap_or(0);
        let place = self.waiting;
        put(self.visits, u, NUMBER, number);
        put(self.visits, u, LOW, number);
        put(self.visits, u, NEXT_CHILD, child);
        put(self.visits, u, FROM, from);
        put(self.visits, place, OPEN, u);
        self.visited = number;
        self.waiting = place.saturating_add(1);
        self.unit = Some(u);
    }

    // Lowers the number that unit `u` is known to share a circle with.
    fn lower(&mut self, u: u32, number: u32) {
        let low = word(self.visits, u, LOW);
        put(self.visits, u, LOW, low.min(number));
    }

    // Looks at the unit that child row `k` of unit `u` imports: one with a rank is done with; one without a number is visited; any other
    // shares a circle.
    fn meet(&mut self, u: u32, k: u32) {
        if !is_kind(self.sheet, k, Kind::Import) {
            return;
        }
        let v = word(self.sheet, k, column::A);
        if entry_at(self.ranks, v) != 0 {
            return;
        }
        let number = word(self.visits, v, NUMBER);
        if number == 0 {
            self.enter(v);
        } else {
            self.lower(u, number);
        }
    }

    // Gives the last rank to the units that wait for one, from the last back to unit `u`.
    fn give_rank(&mut self, u: u32) {
        // From the end, and no further than `u`: what is left waits on.
        while 0 < self.waiting {
            let last = self.waiting - 1;
            let rank = self.rank;
            let v = word(self.visits, last, OPEN);
            put_entry(self.ranks, v, rank);
            self.waiting = last;
            if v == u {
                return;
            }
        }
    }

    // Leaves unit `u`, which is visited. If it shares a circle with none that was visited before it, it gets a rank, and so do all that wait since then.
    fn leave(&mut self, u: u32) {
        let from = word(self.visits, u, FROM);
        let low = word(self.visits, u, LOW);
        self.lower(from, low);
        self.unit = if from == 0 { None } else { Some(from) };
        if low == word(self.visits, u, NUMBER) {
            self.rank = self.rank.saturating_add(1);
            self.give_rank(u);
        }
    }

    // Goes on from unit `u`, which is visited: with its next child row, or back to the unit from which it was visited.
    fn go_on(&mut self, u: u32) {
        let k = word(self.visits, u, NEXT_CHILD);
        if k == 0 {
            self.leave(u);
            return;
        }
        let next = word(self.sheet, k, column::NEXT);
        put(self.visits, u, NEXT_CHILD, next);
        self.meet(u, k);
    }

    // Looks at one row more for a unit without a rank, and visits that.
    fn seek(&mut self) {
        let u = self.row;
        self.row = u.saturating_add(1);
        if is_kind(self.sheet, u, Kind::Unit) && entry_at(self.ranks, u) == 0 {
            self.enter(u);
        }
    }

    // One step.
    fn advance(&mut self) {
        match self.unit {
            Some(u) => self.go_on(u),
            None => self.seek(),
        }
    }

    // Is every unit ranked?
    fn is_over(&self) -> bool {
        self.unit.is_none() && self.sheet.len() / 8 <= self.row as usize
    }
}

// Ranks the units that have no rank yet, from `started` + 1 on. Those that have one, 1 to `started`, import only units of lower ranks.
pub fn rank_circles(sheet: &[u32], started: u32, ranks: &mut [u32]) {
    let mut visits = [0u32; 16384];
    let mut search = Search {
        sheet,
        ranks,
        visits: &mut visits,
        unit: None,
        visited: 0,
        waiting: 0,
        rank: started,
        row: 0,
    };
    for _ in 0..STEPS {
        if search.is_over() {
            return;
        }
        search.advance();
    }
}
