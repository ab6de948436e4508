// The third public question: the run of an image on a heap, with inputs, in lent room and within limits of steps and depth.
#![tactic(auto)]

ghost use Rattle.std.specs.Prelude.{◌≡◌, None, ◌*◌, ◌^◌, ◌≤◌, ◌<◌, length, replicate};
ghost use Rattle.order.specs.Rules.{accepted, answer_of, first_place};
ghost use Rattle.image.specs.Trailer.{class_count};
ghost use Rattle.image.specs.Layout.{layout_rules, Good};
ghost use Rattle.rules.specs.Run.{run_of};
ghost use Rattle.rules.specs.Numbers.{fields_rule, end_numbers};
ghost use Rattle.rows.specs.Rows.{row_words, Rows};
ghost use Rattle.ends.specs.Finished.{Finishes};
ghost use Rattle.run.specs.Answers.{end_word, told_of, Answers};
ghost use Rattle.refusals.specs.Judged.{Free};

use ends::Finished;
use image::{Image, MOST_CLASSES};
use order::Answer;
use refusals::Refusal;
use rows::{TABLE_WORDS, Table};
use rules::End;
use words::Value;

// Most images have few classes. Their table of types is small, for a run must fill it with 0 first: a row for each of so many.
const FEW_CLASSES: usize = 16;

const FEW_WORDS: usize = 240;

// The answer to a run: a refusal, or how it ended and how many steps it took.
pub type Ran = Result<Finished, Refusal>;

// The run of an image that nothing stands against.
fn run_clear(
    table: &Table,
    heap: &mut [u64],
    inputs: &[u64],
    room: &mut [u64],
    steps: u64,
    depth: usize,
) -> Finished
    requires { Free table.now.image.words.now heap.old inputs.now (length room.old) depth }
    ensures { Finishes (run_of table.now.image.words.now heap.old inputs.now steps depth) result heap.new × (room.new ≡ replicate (length room.old) 0) }
{
    start::clear_start(room);
    start::set_inputs(room, inputs);
    let r = machine::run_on(table, heap, room, depth, steps, table.image.layout.main);
    start::clear(room);
    r
}

// The run of an image whose layout and fields are in order, with a lent table of types that has a row for each of its classes.
fn run_tabled(
    image: &Image,
    heap: &mut [u64],
    inputs: &[u64],
    room: &mut [u64],
    steps: u64,
    depth: u64,
    types: &mut [u32],
) -> Ran
    requires { (accepted ≡ answer_of (layout_rules image.now.words.now)) × (first_place (fields_rule image.now.words.now) ≡ None) × (row_words * class_count image.now.words.now ≤ length types.old) }
    ensures { Answers image.now.words.now heap.old inputs.now room.old steps depth result heap.new room.new }
{
    let mut counts = [0; MOST_CLASSES];
    rows::fill_rows(image, &mut counts, types);
    let table = Table {
        image: *image,
        counts: &counts,
        types,
    };
    refusals::judge(&table, heap, inputs, room.len(), depth)?;
    Ok(run_clear(&table, heap, inputs, room, steps, depth as usize))
}

// The same, with a table of types of N words.
fn run_within<const N: usize>(
    image: &Image,
    heap: &mut [u64],
    inputs: &[u64],
    room: &mut [u64],
    steps: u64,
    depth: u64,
) -> Ran
    requires { (accepted ≡ answer_of (layout_rules image.now.words.now)) × (first_place (fields_rule image.now.words.now) ≡ None) × (row_words * class_count image.now.words.now ≤ N) × (N < 2 ^ 32) }
    ensures { Answers image.now.words.now heap.old inputs.now room.old steps depth result heap.new room.new }
{
    let mut types = [0; N];
    run_tabled(image, heap, inputs, room, steps, depth, &mut types)
}

// The run of an image whose layout is in order.
fn run_laid(
    image: &Image,
    heap: &mut [u64],
    inputs: &[u64],
    room: &mut [u64],
    steps: u64,
    depth: u64,
) -> Ran
    requires { accepted ≡ answer_of (layout_rules image.now.words.now) }
    ensures { Answers image.now.words.now heap.old inputs.now room.old steps depth result heap.new room.new }
{
    if let Some(p) = class_rules::fields_place(image) {
        return Err(Refusal::Fields(p));
    }
    if image.layout.class_count <= FEW_CLASSES {
        run_within::<FEW_WORDS>(image, heap, inputs, room, steps, depth)
    } else {
        run_within::<TABLE_WORDS>(image, heap, inputs, room, steps, depth)
    }
}

// The run of an image on a heap, with main's inputs, in lent room: at most so many steps, and at most so deep. Any slices and limits
// may be asked. A refusal changes no word. At an end the heap is as the steps left it, and the room is all 0. The parameters are those of
// the exported `muthaveri_run`, in its order; the functions above take them as they come.
pub fn run(
    image: &[u32],
    heap: &mut [u64],
    inputs: &[u64],
    room: &mut [u64],
    steps: u64,
    depth: u64,
) -> Ran
    ensures { Answers image.now heap.old inputs.now room.old steps depth result heap.new room.new }
{
    let laid = layout::layout_of_image(image)?;
    run_laid(&laid, heap, inputs, room, steps, depth)
}

// What a caller gets, as numbers: the paper's number and place, the steps taken, and the word of the value or address that an end
// carries. The word and the count are 0, and no Option, where there is none, since these are the numbers that C gets.
#[derive(Clone, Copy)]
pub struct Told {
    pub number: u64,
    pub place: u64,
    pub count: u64,
    pub value: u64,
}

// The number and place of an end. There is no `From`, since both types are of other crates.
#[tactic(auto, unfolding(rules::specs::Numbers::end_numbers))]
fn end_answer(e: End) -> Answer
    ensures { result ≡ end_numbers e }
{
    let (number, place) = match e {
        End::Returned(_) => (30, 0),
        End::Threw(_) => (31, 0),
        End::OutOfSteps => (32, 0),
        End::TooDeep => (33, 0),
        End::Stuck(q) => (34, q),
    };
    Answer {
        number,
        place: place as u64,
    }
}

// The word that an end carries.
fn end_word(e: End) -> u64
    ensures { result ≡ end_word e }
{
    match e {
        End::Returned(v) => words::word_of(v),
        End::Threw(a) => words::word_of(Value::Addr(a)),
        End::OutOfSteps | End::TooDeep | End::Stuck(_) => 0,
    }
}

impl From<Ran> for Told {
    ghost from_gives = { λ a result. result ≡ told_of a };

    fn from(a: Ran) -> Told {
        let (n, count, value) = match a {
            Err(f) => (Answer::from(f), 0, 0),
            Ok(r) => (end_answer(r.end), r.count, end_word(r.end)),
        };
        Told {
            number: n.number,
            place: n.place,
            count,
            value,
        }
    }
}
