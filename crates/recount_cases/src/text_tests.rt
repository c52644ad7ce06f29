// What the program recount prints for an input; refused, it is what the annexe prints.
use listing::list;
use recounting::count_again;
use std::alloc::{AllocError, Global};
use std::process::Abort;
use std::test::Fail;

// Two half-hours, with readings for homes of types 1 and 2. docs/METERING.md says how words are read, and works these out by hand.
const TWO_TYPES: [u32; 16] = [
    0x10000002, 0x20000002, 0x30000000, 0x310003E8, 0x320001F4, 0x3300005A, 0x3400005A, 0x40000BB8,
    0x500001F4, 0x600000C8, 0x60000320, 0x700003E8, 0x60000384, 0x600002BC, 0x70000000, 0xF000000F,
];

// One half-hour, with no battery: homes of types 1 to 4 demand 100, 200, 300 and 2,000, and 1,000 are generated for each. 1,000 Wh cost 3,000, and bring in 500.
const FOUR_TYPES: [u32; 14] = [
    0x10000001, 0x20000004, 0x30000000, 0x31000000, 0x32000000, 0x33000001, 0x34000001, 0x40000BB8,
    0x500001F4, 0x60000064, 0x600000C8, 0x6000012C, 0x600007D0, 0x700003E8,
];

// An input with so many homes of each type over these words.
fn input(alloc: Global, counts: [u32; 4], words: &[u32]) -> Result<Vec<u8>, AllocError> {
    let [one, two, three, four] = counts;
    let homes = [
        0x91000000 | one,
        0x92000000 | two,
        0x93000000 | three,
        0x94000000 | four,
    ];
    let mut bytes = Vec::new(alloc);
    for word in homes.iter().chain(words) {
        bytes.extend_from_slice(&word.to_le_bytes())?;
    }
    Ok(bytes)
}

fn answer(alloc: Global, input: &[u8]) -> Result<String, AllocError> {
    match count_again(input) {
        Ok(recount) => format!(in alloc; "{recount}"),
        Err(refusal) => format!(in alloc; "{refusal}"),
    }
}

fn check(
    rt: &(impl Abort + AllocGlobal),
    counts: [u32; 4],
    words: &[u32],
    expected: &str,
) -> Result<(), Fail> {
    let input = input(rt.alloc(), counts, words)?;
    let text = answer(rt.alloc(), input.as_slice())?;
    assert_eq!(rt; text.as_str(), expected);
    Ok(())
}

// Refused, and in the words of the annexe.
fn check_refused(
    rt: &(impl Abort + AllocGlobal),
    counts: [u32; 4],
    words: &[u32],
    expected: &str,
) -> Result<(), Fail> {
    check(rt, counts, words, expected)?;
    let input = input(rt.alloc(), counts, words)?;
    let refused = list(input.as_slice()).err();
    let refusal = refused.ok_or_else(|| Fail::new("the annexe lists this input"))?;
    let text = format!(in rt.alloc(); "{refusal}")?;
    assert_eq!(rt; text.as_str(), expected);
    Ok(())
}

// The second period without its closing word is closed at place 14.
fn four_types() -> [u32; 15] {
    let mut words = [0xF000000E; 15];
    words[..14].copy_from_slice(&FOUR_TYPES);
    words
}

// docs/RECOUNT.md works these out by hand.
#[test]
fn each_type_has_a_row_with_both_shares(rt: HostRuntime) -> Result<(), Fail> {
    let text =
        "homes 3 over 6\ntype 1 share 7431 again 7431 groups 4\ntype 2 share 7368 again 7368 groups 4\n";
    check(&rt, [2, 1, 0, 0], &TWO_TYPES, text)
}

// Without the home of type 4 the others have more than they use, which is exported: 900 of type 1 bring in 450, 700 of type 3 bring in 350. It alone lacks 1,000, and costs 3,000; beside others
// it uses up what they have left. All together export 1,300, which bring in 650: -9150 - 2 x 6950 + 15,250 = 12 x -650.
#[test]
fn shares_below_0_and_a_type_without_homes_between(rt: HostRuntime) -> Result<(), Fail> {
    let text =
        "homes 4 over 12\ntype 1 share -9150 again -9150 groups 8\ntype 3 share -6950 again -6950 groups 8\ntype 4 share 15250 again 15250 groups 8\n";
    check(&rt, [1, 0, 2, 1], &four_types(), text)
}

// An input without a period, one whose period lacks its closing word, one for nobody, one with a home of a type without readings, one for 25 homes, and no input at all.
#[test]
fn it_refuses_as_the_annexe_does(rt: HostRuntime) -> Result<(), Fail> {
    check_refused(&rt, [1, 0, 0, 0], &[], "refused 21 0\n")?;
    check_refused(&rt, [1, 0, 0, 0], &TWO_TYPES[..15], "refused 25 15\n")?;
    check_refused(&rt, [0, 0, 0, 0], &TWO_TYPES, "refused 4\n")?;
    check_refused(&rt, [0, 0, 1, 0], &TWO_TYPES, "refused 7 1 12 0\n")?;
    check_refused(&rt, [24, 1, 0, 0], &TWO_TYPES, "refused 61\n")?;
    let text = answer(rt.alloc(), &[])?;
    assert_eq!(rt; text.as_str(), "refused 61\n");
    Ok(())
}
