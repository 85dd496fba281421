// What the lines of a script do to a sheet and its names. A word or a byte that finds no room is left out.

// Lent room, of which the first so many places are in use.
#[derive(Drop)]
pub struct Filled<'a, T> {
    room: &'a mut [T],
    used: usize,
}

impl<'a, T: Copy> Filled<'a, T> {
    pub fn new(room: &'a mut [T]) -> Self {
        Filled { room, used: 0 }
    }

    pub fn items(&self) -> &[T] {
        self.room.get(..self.used).unwrap_or(self.room)
    }

    pub fn push(&mut self, item: T) {
        if self.used < self.room.len() {
            self.room[self.used] = item;
            self.used += 1;
        }
    }

    pub fn extend(&mut self, items: &[T]) {
        for &item in items {
            self.push(item);
        }
    }

    pub fn pop(&mut self) {
        self.used = self.used.saturating_sub(1);
    }

    pub fn clear(&mut self) {
        self.used = 0;
    }
}

// A line of the script.
#[derive(Drop)]
pub enum Line<'a> {
    // A new sheet, of no rows and no names.
    New,
    Rows { kind: u32, column: u32, count: u32 },
    Word,
    Name(&'a [u8]),
    Names { count: u32, size: u32 },
    // The last byte of the names goes.
    Cut,
    Row([u32; 8]),
    Change { row: u32, column: u32, value: u32 },
    Ask(&'a [u8]),
    Remark,
}

// A number with a digit more, if that is a word.
fn with_digit(number: u32, digit: u8) -> u32 {
    number
        .checked_mul(10)
        .and_then(|tens| tens.checked_add(u32::from(digit.saturating_sub(b'0'))))
        .unwrap_or(number)
}

// The numbers of a line, the first eight, with spaces between them. Other bytes count for nothing.
fn numbers(line: &[u8]) -> [u32; 8] {
    let mut out = [0u32; 8];
    for (number, part) in out.iter_mut().zip(line.split(|&byte| byte == b' ')) {
        *number = part
            .iter()
            .filter(|byte| byte.is_ascii_digit())
            .fold(0, |so_far, &byte| with_digit(so_far, byte));
    }
    out
}

// What a line says that has a first byte.
pub fn parse(first: u8, line: &[u8]) -> Line<'_> {
    // what follows the first byte and the space after it
    let text = line.get(2..).unwrap_or(&[]);
    let args = numbers(line);
    match first {
        b's' => Line::New,
        b'r' => Line::Rows {
            kind: args[1],
            column: args[2],
            count: args[3],
        },
        b'w' => Line::Word,
        b'n' => Line::Name(text),
        b'g' => Line::Names {
            count: args[1],
            size: args[2],
        },
        b'u' => Line::Cut,
        b'c' => Line::Change {
            row: args[1],
            column: args[2],
            value: args[3],
        },
        b'?' => Line::Ask(text),
        b'0'..=b'9' => Line::Row(args),
        _ => Line::Remark,
    }
}

// A row of a kind with a link in column 1 (next) or 2 (child).
fn linked(kind: u32, column: u32, link: u32) -> [u32; 8] {
    if column == 1 {
        [kind, link, 0, 0, 0, 0, 0, 0]
    } else {
        [kind, 0, link, 0, 0, 0, 0, 0]
    }
}

// `count` rows of a kind, each but the last linked by a column to the row after it.
pub fn add_chain(words: &mut Filled<u32>, kind: u32, column: u32, count: u32) {
    for _ in 1..count {
        let next = u32::try_from(words.used / 8 + 1).unwrap_or(0);
        words.extend(&linked(kind, column, next));
    }
    words.extend(&linked(kind, column, 0));
}

pub fn add_name(names: &mut Filled<u8>, name: &[u8]) {
    names.extend(name);
    names.push(b'\n');
}

// `count` names of four digits, which count them, and then letters.
pub fn add_names(names: &mut Filled<u8>, count: u32, size: u32) {
    for number in 0..count {
        for weight in [1000, 100, 10, 1] {
            names.push(b'0' + (number / weight % 10) as u8);
        }
        for _ in 4..size {
            names.push(b'x');
        }
        names.push(b'\n');
    }
}
