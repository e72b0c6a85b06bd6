// Keys and inputs as keys of hash maps.
use crate::cases::check_each;
use crate::keys::{KEYS, ModifierFlags, pressed};
use std::collections::HashMap;
use std::process::Abort;
use std::test::Fail;
use textarea_data::input::{Input, Key};

/// Keys without an entry.
static OTHERS: [Key; 2] = [Key::Char('c'), Key::F(1)];

static MODIFIER_FLAGS: [ModifierFlags; 8] = [
    (false, false, false),
    (false, false, true),
    (false, true, false),
    (false, true, true),
    (true, false, false),
    (true, false, true),
    (true, true, false),
    (true, true, true),
];

// Keys differ from each other, and an entry is found by an equal key.
#[test]
fn keys(rt: HostRuntime) -> Result<(), Fail> {
    let mut numbers = HashMap::new(rt.alloc());
    for (number, (key, _)) in KEYS.iter().enumerate() {
        let before = numbers.insert(*key, number)?;
        assert!(rt; before.is_none(), "{key:?}");
    }
    for (number, (key, _)) in KEYS.iter().enumerate() {
        assert!(rt; numbers.get(key).copied() == Some(number), "{key:?}");
    }
    check_each(&rt, &OTHERS, |_, key| Ok(numbers.get(key).is_none()))
}

/// Inputs, and the number that is found for each if only the first has an entry.
static LOOKUPS: [(Key, ModifierFlags, Option<usize>); 5] = [
    (Key::Char('a'), (true, false, true), Some(1)),
    (Key::Char('b'), (true, false, true), None),
    (Key::Char('a'), (false, false, true), None),
    (Key::Char('a'), (true, true, true), None),
    (Key::Char('a'), (true, false, false), None),
];

fn number_of(numbers: &HashMap<Input, usize>, key: Key, modifiers: ModifierFlags) -> Option<usize> {
    numbers.get(&pressed(key, modifiers)).copied()
}

// An entry is found by an equal input, and by none that differs in a field.
#[test]
fn inputs(rt: HostRuntime) -> Result<(), Fail> {
    let mut numbers = HashMap::new(rt.alloc());
    numbers.insert(pressed(Key::Char('a'), (true, false, true)), 1)?;
    check_each(&rt, &LOOKUPS, |_, (key, modifiers, wanted)| {
        Ok(number_of(&numbers, *key, *modifiers) == *wanted)
    })?;
    check_all(&rt)
}

// Every key with every combination of Ctrl, Alt and Shift gets the next number.
fn check_all(rt: &(impl Abort + AllocGlobal)) -> Result<(), Fail> {
    let mut numbers = HashMap::new(rt.alloc());
    for (key, _) in &KEYS {
        for modifiers in &MODIFIER_FLAGS {
            let number = numbers.len();
            numbers.insert(pressed(*key, *modifiers), number)?;
        }
    }
    assert!(rt; numbers.len() == 216);
    let mut wanted = 0..216usize;
    for (key, _) in &KEYS {
        for modifiers in &MODIFIER_FLAGS {
            let is_found = number_of(&numbers, *key, *modifiers) == wanted.next();
            assert!(rt; is_found, "{key:?}, {modifiers:?}");
        }
    }
    Ok(())
}
