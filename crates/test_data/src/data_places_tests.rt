//! Values of each type, put into a place of a plain memory and got back.
ghost use Rattle.std.specs.Prelude.{◌≡◌, ◌+◌, ◌<◌, ◌≤◌, None, OnOk};

use crate::shared::zeros;
use data_layout::layout::Layout;
use data_places::place::Place;
use data_places::word::Word;
use std::test::Fail;
use stm_model::access::Access;
use stm_model::stop::Stop;

/// What a place holds after the value that is put there.
fn again<T: Word, A: Access>(acc: &mut A, at: usize, value: T) -> Result<T, Stop>
    requires going { A.stopped acc.old ≡ None }
    requires within { at < A.words acc.old }
    ensures going { OnOk result (A.stopped acc.new ≡ None) }
    ensures words { OnOk result (A.words acc.new ≡ A.words acc.old) }
{
    let place = Place::<T>::new(at);
    place.set(acc, value)?;
    place.get(acc)
}

/// Where an account lies: two words.
#[derive(Clone, Copy, Drop)]
struct Account {
    open: Place<bool>,
    balance: Place<i64>,
}

impl Account {
    fn laid(fields: &mut Layout) -> Account
        requires { fields.old + 2 ≤ 1048576 }
        ensures at { (result.open.at ≡ fields.old) × (result.balance.at ≡ fields.old + 1) }
        ensures words { fields.new ≡ fields.old + 2 }
    {
        Account {
            open: fields.place(),
            balance: fields.place(),
        }
    }
}

/// A type of one's own: its code, and two functions.
#[derive(Clone, Copy, Drop, Debug, PartialEq, Eq)]
enum Light {
    Red,
    Amber,
    Green,
}

impl Word for Light {
    ghost use Rattle.test_data.specs.declared.data_places_tests.Light.TheVariants.{Red, Amber, Green};

    ghost code = { elim [ Red ↦ 0 | Amber ↦ 1 | Green ↦ 2 ] };

    fn to_word(&self) -> u64 {
        match self {
            Light::Red => 0,
            Light::Amber => 1,
            Light::Green => 2,
        }
    }

    fn of_word(word: u64) -> Light {
        match word {
            0 => Light::Red,
            1 => Light::Amber,
            _ => Light::Green,
        }
    }
}

#[test]
fn a_record_is_a_struct_of_places(rt: HostRuntime) -> Result<(), Fail> {
    let mut memory = zeros(rt.alloc(), 4)?;
    let mut layout = Layout::new();
    let _other = layout.places::<u64>(2);
    let account = Account::laid(&mut layout);
    assert_eq!(rt;
        (account.open.at, account.balance.at, layout.words()),
        (2, 3, 4)
    );
    assert_eq!(rt; account.open.get(&mut memory), Ok(false));
    assert_eq!(rt; account.open.set(&mut memory, true), Ok(()));
    assert_eq!(rt; account.balance.set(&mut memory, -5), Ok(()));
    assert_eq!(rt; account.open.get(&mut memory), Ok(true));
    assert_eq!(rt; account.balance.get(&mut memory), Ok(-5));
    Ok(())
}

#[test]
fn values_come_back_from_their_places(rt: HostRuntime) -> Result<(), Fail> {
    let mut memory = zeros(rt.alloc(), 2)?;
    assert_eq!(rt; again(&mut memory, 1, i64::MIN), Ok(i64::MIN));
    assert_eq!(rt; again(&mut memory, 1, -1i64), Ok(-1));
    assert_eq!(rt;
        again(&mut memory, 0, Some('\u{E000}')),
        Ok(Some('\u{E000}'))
    );
    assert_eq!(rt; again(&mut memory, 0, Some(char::MAX)), Ok(Some(char::MAX)));
    assert_eq!(rt; again(&mut memory, 0, None::<char>), Ok(None));
    Ok(())
}

#[test]
fn a_place_is_updated(rt: HostRuntime) -> Result<(), Fail> {
    let mut memory = zeros(rt.alloc(), 2)?;
    let light = Place::<Light>::new(1);
    let turn = |light: Light| match light {
        Light::Red => Light::Green,
        Light::Amber => Light::Red,
        Light::Green => Light::Amber,
    };
    assert_eq!(rt; light.get(&mut memory), Ok(Light::Red));
    assert_eq!(rt; light.update(&mut memory, turn), Ok(Light::Green));
    assert_eq!(rt; light.update(&mut memory, turn), Ok(Light::Amber));
    assert_eq!(rt; light.get(&mut memory), Ok(Light::Amber));
    assert_eq!(rt; Place::<u64>::new(1).get(&mut memory), Ok(1));
    Ok(())
}

#[test]
fn a_layout_hands_out_words_once(rt: HostRuntime) -> Result<(), Fail> {
    let mut layout = Layout::new();
    let count = layout.place::<u64>();
    let lights = layout.places::<Light>(3);
    let accounts = layout.records(4, 2);
    let queue = layout.queue(8);
    let map = layout.sum_map(2);
    let tree = layout.tree(2);
    let hash = layout.hash(1);
    let list = layout.list(1);
    let counter = layout.counter(4);
    let third = Account::laid(&mut accounts.record(2));
    assert_eq!(rt; (count.at, lights.first, lights.at(2).at), (0, 1, 3));
    assert_eq!(rt;
        (accounts.first, third.open.at, third.balance.at),
        (4, 8, 9)
    );
    assert_eq!(rt; (queue.at, map.at, tree.at), (12, 22, 33));
    assert_eq!(rt;
        (hash.at, list.at, counter.at, layout.words()),
        (40, 58, 61, 65)
    );
    Ok(())
}

#[test]
fn a_closed_memory_is_read_by_a_place(rt: HostRuntime) -> Result<(), Fail> {
    let words = vec![in rt.alloc(); 0u64, 3, 1]?;
    assert_eq!(rt;
        Place::<Option<u8>>::new(1).value_in(words.as_slice()),
        Some(2)
    );
    assert_eq!(rt; Place::<bool>::new(2).value_in(words.as_slice()), true);
    Ok(())
}
