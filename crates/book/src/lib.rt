#![tactic(auto)]
// The book: where its records stand, and whether it is good. No other crate knows its bytes.
ghost use Rattle.std.specs.Prelude.{◌≡◌, Bool, ℕ, true, false, ◌+◌, ◌*◌, ◌≤◌, ◌<◌, length, IfOk};
ghost use Rattle.lemmas.specs.Walks.{every};
ghost use Rattle.book.specs.Layout.{head_size, most_activities, most_seats, activity_count, seat_count, activities_from, seats_from, size_of, activity_of, seat_of, put_state, put_direction, moved, Shaped};
ghost use Rattle.book.specs.Marks.{seat_marks, Marked, TellsMarks, Tells};
ghost use Rattle.book.specs.Book.{activity_good, seat_good, activity_good_at, seat_good_at, fits_at, head_good, activities_good, seats_good, seats_fit, activities_refusal, seats_refusal, records_refusal, book_refusal, number, number_of, headed, opened};

use std::marker::Model;

// Each field is a number, as a record may hold any byte and is read before its book is known to be good.
#[derive(Clone, Copy, Debug, PartialEq, Eq)]
pub struct Activity {
    pub kind: u8,
    pub direction: u8,
}

// Role, table and state are numbers too: what `rules` answers for each of them is asked of any byte.
#[derive(Clone, Copy, Debug, PartialEq, Eq)]
pub struct Seat {
    pub activity: usize,
    pub role: u8,
    pub table: u8,
    pub state: u8,
}

// Why a book is refused, by the number that says it.
#[derive(Clone, Copy, Debug, PartialEq, Eq)]
pub enum Refusal {
    Short = 1,
    Layout = 2,
    Activity = 3,
    Seat = 4,
    SeatDirection = 5,
}

// Bytes that begin with a header.
#[derive(Drop)]
pub struct Head<'a> {
    bytes: &'a [u8],
}

impl<'a> Model for Head<'a> {
    ghost use Rattle.std.specs.Prelude.{List, ℕ, ◌≤◌, length};

    ghost Value = { List ℕ };

    ghost use Rattle.book.specs.Layout.{head_size};

    ghost view = { λ head. head.bytes.now };

    ghost invariant = { λ head. head_size ≤ length head.bytes.now };
}

// Bytes whose header says where the records are and how long the book is.
#[derive(Drop)]
pub struct Book<'a> {
    bytes: &'a [u8],
}

impl<'a> Model for Book<'a> {
    ghost use Rattle.std.specs.Prelude.{List, ℕ};

    ghost Value = { List ℕ };

    ghost use Rattle.book.specs.Layout.{Shaped};

    ghost view = { λ book. book.bytes.now };

    ghost invariant = { λ book. Shaped book.bytes.now };
}

// Kinds of activities, by the numbers that a book says. Its byte may be any, so they are numbers, as in `Activity`.
pub const ATOMIC: u8 = 1;

pub const MIXED: u8 = 2;

pub const HEAD_SIZE: usize = 8;

pub const ACTIVITY_SIZE: usize = 2;

pub const SEAT_SIZE: usize = 4;

pub const ACTIVITIES_MOST: usize = 256;

pub const SEATS_MOST: usize = 4096;

// From so many seats on a table of marks pays.
const MANY_SEATS: usize = 64;

impl<'a> Head<'a> {
    // The header, if there are enough bytes for one.
    pub fn new(bytes: &'a [u8]) -> Option<Head<'a>>
        ensures { result ≡ headed bytes.now }
    {
        if bytes.len() < HEAD_SIZE {
            return None;
        }
        Some(Head { bytes })
    }

    // The header of bytes that are known to have one.
    pub fn of(bytes: &'a [u8]) -> Head<'a>
        requires { head_size ≤ length bytes.now }
        ensures { result ≡ bytes.now }
    {
        Head { bytes }
    }

    // How many activities, and how many seats, the header says.
    pub fn activity_count(&self) -> usize
        ensures value { result ≡ activity_count self.now }
        ensures most { result < 65536 }
    {
        records::u16_at(self.bytes, 0)
    }

    pub fn seat_count(&self) -> usize
        ensures value { result ≡ seat_count self.now }
        ensures most { result < 65536 }
    {
        records::u16_at(self.bytes, 2)
    }

    // Where the activities begin, and where the seats do, as the header says.
    fn activities_from(&self) -> usize
        ensures { result ≡ activities_from self.now }
    {
        records::u16_at(self.bytes, 4)
    }

    fn seats_from(&self) -> usize
        ensures { result ≡ seats_from self.now }
    {
        records::u16_at(self.bytes, 6)
    }

    // The length of the book that the header begins.
    pub fn size(&self) -> usize
        ensures { result ≡ size_of self.now }
    {
        HEAD_SIZE + ACTIVITY_SIZE * self.activity_count() + SEAT_SIZE * self.seat_count()
    }

    // Whether the four numbers and the length are as they must be.
    #[tactic(auto, unfolding(crate::specs::Book::head_good, crate::specs::Book::numbers_good))]
    fn is_good(&self) -> bool
        ensures { result ≡ head_good self.now }
    {
        if ACTIVITIES_MOST < self.activity_count() {
            return false;
        }
        if SEATS_MOST < self.seat_count() {
            return false;
        }
        if self.activities_from() != HEAD_SIZE {
            return false;
        }
        if self.seats_from() != HEAD_SIZE + ACTIVITY_SIZE * self.activity_count() {
            return false;
        }
        self.bytes.len() == self.size()
    }
}

impl Activity {
    // An atomic activity has directions up to 2 and a mixed one none: two fewer for one kind more. So it is a sum and no jump, as no
    // processor foresees an activity's kind.
    fn is_good(self) -> bool
        ensures { result ≡ activity_good self.kind self.direction }
    {
        (ATOMIC <= self.kind) & (2 * self.kind as usize + self.direction as usize <= 4)
    }

    // The states that a seat of a good activity may have, by rules 4 and 5 together. An atomic activity without a direction, the two with
    // one and a mixed activity are 0, 1, 2 and 3: no processor foresees which of them it is, and four numbers are looked up without a jump.
    #[tactic(auto, using(crate::specs::Marks::marks_are))]
    fn seat_marks(self) -> u64
        requires { activity_good self.kind self.direction ≡ true }
        ensures { result ≡ seat_marks self.kind self.direction }
    {
        let which = (3 * self.kind as usize + self.direction as usize + 1) % 4;
        match which {
            0 => rules::suiting(rules::DIRECTION_NONE),
            1 => rules::suiting(rules::Direction::Close as u8),
            2 => rules::suiting(rules::Direction::Compensate as u8),
            _ => rules::STATES,
        }
    }
}

impl Seat {
    // Whether it is a seat that the rules allow in a book of so many activities.
    fn is_good(self, activities: usize) -> bool
        ensures { result ≡ seat_good activities self }
    {
        if activities <= self.activity {
            return false;
        }
        rules::has_state(self.role, self.table, self.state)
    }
}

// Whether a rule holds for each number below `count`. The outline's form: a labelled walk, left at the first record that breaks the rule.
fn holds_for_all<F: Fn(usize) -> bool>(count: usize, rule: F) -> bool
    requires { (n : ℕ) → n < count → F.pre rule n }
    ensures { (p : ℕ → Bool) → ((n : ℕ) (r : Bool) → n < count → F.post rule n r → r ≡ p n) → result ≡ every p count }
{
    let mut holds = true;
    'walk: for n in 0..count {
        if !rule(n) {
            holds = false;
            break 'walk;
        }
    }
    holds
}

impl<'a> Book<'a> {
    // A book, or the refusal of bytes that have no header or one whose numbers are not as they must be.
    pub fn new(bytes: &'a [u8]) -> Result<Book<'a>, Refusal>
        ensures { result ≡ opened bytes.now }
    {
        let head = Head::new(bytes).ok_or(Refusal::Short)?;
        if !head.is_good() {
            return Err(Refusal::Layout);
        }
        Ok(Book { bytes })
    }

    // The book of bytes that are known to be one.
    pub fn of(bytes: &'a [u8]) -> Book<'a>
        requires { Shaped bytes.now }
        ensures { result ≡ bytes.now }
    {
        Book { bytes }
    }

    fn head(&self) -> Head<'a>
        ensures value { result ≡ self.now }
        ensures shaped { Shaped result }
    {
        Head { bytes: self.bytes }
    }

    // How many activities, and how many seats, it has: as many as a book may have, where a header alone may say any numbers (`most`).
    pub fn activity_count(&self) -> usize
        ensures value { result ≡ activity_count self.now }
        ensures most { result ≤ most_activities }
    {
        self.head().activity_count()
    }

    pub fn seat_count(&self) -> usize
        ensures value { result ≡ seat_count self.now }
        ensures most { result ≤ most_seats }
    {
        self.head().seat_count()
    }

    // Activity `k`.
    #[tactic(auto, unfolding(crate::specs::Layout::activity_of))]
    pub fn activity(&self, k: usize) -> Activity
        requires { k < activity_count self.now }
        ensures { result ≡ activity_of self.now k }
    {
        let bytes = self.bytes;
        let at = HEAD_SIZE + ACTIVITY_SIZE * k;
        Activity {
            kind: bytes[at],
            direction: bytes[at + 1],
        }
    }

    // Seat `n`.
    #[tactic(auto, unfolding(crate::specs::Layout::seat_of))]
    pub fn seat(&self, n: usize) -> Seat
        requires { n < seat_count self.now }
        ensures value { result ≡ seat_of self.now n }
        ensures most { result.activity < 256 }
    {
        let bytes = self.bytes;
        let at = self.head().seats_from() + SEAT_SIZE * n;
        Seat {
            activity: bytes[at] as usize,
            role: bytes[at + 1],
            table: bytes[at + 2],
            state: bytes[at + 3],
        }
    }

    // The refusal of the records.
    pub fn check(&self) -> Result<(), Refusal>
        ensures { number_of result ≡ records_refusal self.now }
    {
        if self.seat_count() < MANY_SEATS {
            self.check_few()
        } else {
            self.check_many()
        }
    }

    fn check_few(&self) -> Result<(), Refusal>
        ensures { number_of result ≡ records_refusal self.now }
    {
        if !self.activities_good() {
            return Err(Refusal::Activity);
        }
        self.check_seats(|k| self.marks_of(k))
    }

    // Every activity's marks are made once, and each seat is looked up in them: worth their making in a book of many seats.
    fn check_many(&self) -> Result<(), Refusal>
        ensures { number_of result ≡ records_refusal self.now }
    {
        let mut marks = [0; ACTIVITIES_MOST];
        self.fill_marks(&mut marks)?;
        self.check_seats(|k| Some(marks[k]))
    }

    // Seats are walked once for rules 4 and 5; only if one is bad they are walked again, to tell the two apart.
    fn check_seats<F: Fn(usize) -> Option<u64>>(&self, marks_of: F) -> Result<(), Refusal>
        requires { Tells self.now (F.pre marks_of) (F.post marks_of) }
        ensures { number_of result ≡ seats_refusal self.now }
    {
        if self.seats_fit(marks_of) {
            return Ok(());
        }
        Err(self.seats_refusal())
    }

    // 4 or 5, for seats of which one is not as it should be. Few books come here, so it is kept out of the walk's code.
    #[cold]
    fn seats_refusal(&self) -> Refusal
        requires { seats_fit self.now ≡ false }
        ensures { number result ≡ seats_refusal self.now }
    {
        if !self.seats_good() {
            return Refusal::Seat;
        }
        Refusal::SeatDirection
    }

    // Every activity is one that the rules allow.
    #[tactic(auto, unfolding(crate::specs::Book::activities_good), using(lemmas::specs::Walks::every_told))]
    fn activities_good(&self) -> bool
        ensures { result ≡ activities_good self.now }
    {
        holds_for_all(self.activity_count(), |k| self.activity(k).is_good())
    }

    // Every seat is one that the rules allow.
    #[tactic(auto, unfolding(crate::specs::Book::seats_good), using(lemmas::specs::Walks::every_told))]
    fn seats_good(&self) -> bool
        ensures { result ≡ seats_good self.now }
    {
        let activities = self.activity_count();
        holds_for_all(self.seat_count(), |n| self.seat(n).is_good(activities))
    }

    // Every seat is one that the rules allow, and none is against its activity's direction.
    #[tactic(auto, unfolding(crate::specs::Book::seats_fit), using(lemmas::specs::Walks::every_told))]
    fn seats_fit<F: Fn(usize) -> Option<u64>>(&self, marks_of: F) -> bool
        requires { Tells self.now (F.pre marks_of) (F.post marks_of) }
        ensures { result ≡ seats_fit self.now }
    {
        holds_for_all(self.seat_count(), |n| self.seat_fits(n, &marks_of))
    }

    // The same of one seat: a closure in the walk's call would have these two clauses written beside it too.
    fn seat_fits<F: Fn(usize) -> Option<u64>>(&self, n: usize, marks_of: &F) -> bool
        requires n_bound { n < seat_count self.now }
        requires marks { Tells self.now (F.pre marks_of.now) (F.post marks_of.now) }
        ensures { result ≡ fits_at self.now n }
    {
        let x = self.seat(n);
        let Some(marks) = marks_of(x.activity) else {
            return false;
        };
        rules::marked(marks, x.role, x.table, x.state)
    }

    // The marks of activity `k`'s seats, where every activity is good; none if there is no such activity.
    fn marks_of(&self, k: usize) -> Option<u64>
        requires { activities_good self.now ≡ true }
        ensures { TellsMarks self.now k result }
    {
        if self.activity_count() <= k {
            return None;
        }
        Some(self.activity(k).seat_marks())
    }

    // Every activity is one that the rules allow, and then the marks of each one's seats stand at its number.
    // The outline's form: a labelled walk, left at the first record that breaks the rule. It writes as it goes: no `holds_for_all`.
    fn fill_marks(&self, marks: &mut [u64]) -> Result<(), Refusal>
        requires { Marked self.now 0 marks.old }
        ensures value { number_of result ≡ activities_refusal self.now }
        ensures marks { IfOk result (λ _. Marked self.now (activity_count self.now) marks.new) }
    {
        let mut outcome = Ok(());
        'walk: for k in 0..self.activity_count() {
            let y = self.activity(k);
            if !y.is_good() {
                outcome = Err(Refusal::Activity);
                break 'walk;
            }
            marks[k] = y.seat_marks();
        }
        outcome
    }
}

// The refusal of a book.
pub fn check(book: &[u8]) -> Result<(), Refusal>
    ensures { number_of result ≡ book_refusal book.now }
{
    Book::new(book)?.check()
}

// Seat `n` in another state. A write changes what a `Book` would lend, so the writes take the bytes and ask that they are `Shaped`.
#[tactic(auto, unfolding(crate::specs::Layout::put_state))]
pub fn put_state(book: &mut [u8], n: usize, state: u8)
    requires shaped { Shaped book.old }
    requires n_bound { n < seat_count book.old }
    ensures { book.new ≡ put_state book.old n state }
{
    let from = Book::of(book).head().seats_from();
    book[from + SEAT_SIZE * n + 3] = state;
}

// Activity `k` with another direction, any number as in `put_outcome`.
// One function for both stores would take the place, which these two alone know.
#[tactic(auto, unfolding(crate::specs::Layout::put_direction))]
fn put_direction(book: &mut [u8], k: usize, direction: u8)
    requires shaped { Shaped book.old }
    requires k_bound { k < activity_count book.old }
    ensures { book.new ≡ put_direction book.old k direction }
{
    book[HEAD_SIZE + ACTIVITY_SIZE * k + 1] = direction;
}

// Seat `n`, of activity `k`, in another state, and that activity with another direction: two numbers, as `moved` is of any.
pub fn put_outcome(book: &mut [u8], n: usize, k: usize, state: u8, direction: u8)
    requires shaped { Shaped book.old }
    requires n_bound { n < seat_count book.old }
    requires k_value { (k ≡ (seat_of book.old n).activity) × (k < activity_count book.old) }
    ensures { book.new ≡ moved book.old n state direction }
{
    put_state(book, n, state);
    put_direction(book, k, direction);
}
