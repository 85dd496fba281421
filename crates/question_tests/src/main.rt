// Asks questions 1 to 4 of the cases of a script, which is the program's input. Prints a line for each case: its name, and the
// first question that gets a no, or 0.
//
// A line of the script is a row of eight numbers, which is added to the sheet, or one of these:
//   s                     a new sheet, of no rows and no names
//   r KIND COLUMN COUNT   adds rows of a kind; column 1 (next) or 2 (child) of each but the last has the row after it
//   w                     adds a word that is 0
//   n NAME                adds a name
//   g COUNT SIZE          adds names of SIZE bytes, at least 4; the first four count them from 0
//   u                     takes the last byte off the names
//   c ROW COLUMN VALUE    changes a word until the next case is asked
//   ? CASE                asks the questions
// Any other line is a remark.
#![tactic(auto)]

mod edit;

use crate::edit::{Filled, Line, add_chain, add_name, add_names, parse};
use ast::question::no_number;
use first_four::first_four;
use program_io::read_full;
use words::put;

// A sheet and its names, and the sheet with the changes since the last case, of which the questions are asked.
#[derive(Drop)]
struct Case<'a> {
    sheet: Filled<'a, u32>,
    names: Filled<'a, u8>,
    changed: &'a mut [u32],
}

impl Case<'_> {
    // Asks the questions, and prints the case's name and the first of them that gets a no, or 0.
    fn ask(&self, rt: &impl Print, name: &[u8]) {
        let count = self.sheet.items().len();
        let words = self.changed.get(..count).unwrap_or(self.changed);
        let no = no_number(first_four(words, self.names.items()));
        let _ = rt.write_all(name);
        let _ = println!(rt; ": {no}");
    }

    // The sheet without the changes.
    fn restore(&mut self) {
        for (word, &stored) in self.changed.iter_mut().zip(self.sheet.items()) {
            *word = stored;
        }
    }

    // One line of the script.
    fn step(&mut self, rt: &impl Print, line: &[u8]) {
        let Some(&first) = line.first() else {
            return;
        };
        match parse(first, line) {
            Line::New => {
                self.sheet.clear();
                self.names.clear();
            }
            Line::Rows {
                kind,
                column,
                count,
            } => add_chain(&mut self.sheet, kind, column, count),
            Line::Word => self.sheet.push(0),
            Line::Name(name) => add_name(&mut self.names, name),
            Line::Names { count, size } => add_names(&mut self.names, count, size),
            Line::Cut => self.names.pop(),
            Line::Row(row) => self.sheet.extend(&row),
            Line::Change { row, column, value } => return put(self.changed, row, column, value),
            Line::Ask(name) => self.ask(rt, name),
            Line::Remark => {}
        }
        self.restore();
    }
}

fn main(rt: HostRuntime) {
    let mut script = [0u8; 65536];
    let n = read_full(&mut rt.stdin(), &mut script);
    // 2,049 rows, and 32,769 bytes of names
    let mut sheet = [0u32; 16392];
    let mut changed = [0u32; 16392];
    let mut names = [0u8; 32769];
    let mut case = Case {
        sheet: Filled::new(&mut sheet),
        names: Filled::new(&mut names),
        changed: &mut changed,
    };
    for line in script[..n].split(|&byte| byte == b'\n') {
        case.step(&rt, line);
    }
}
