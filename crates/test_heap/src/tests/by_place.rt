//! Calls by place, each growth refused in turn: the call answers OutOfMemory, there are as many handles, places and
//! entries as before, and nothing is dead; with memory it then passes. The objects, the frame and the places are of one
//! scarce memory. What takes none comes first: what is read by place, at which place a key stands, and an exchange.

use crate::tests::worlds::{Case, PLACES, World, plays_all};

/// 0 is a dictionary with None beside 7, 1 None, 2 a text, 3 the integer 1,000, 4 a list with None, 5 a mailbox with it; 6
/// is a list that never had an entry, and 7 a mailbox that never had a letter. Then no memory is left, and no place.
const EIGHT: World = World {
    begins: "make dict; make none; make text a text of more than sixteen bytes; make int 1000;
        make list; make mailbox; make list; make mailbox;
        dict_set 1 into 0 beside 7; make none to 1; list_push 1 into 4; make none to 1; send 1 into 5; make none to 1;
        starve; until refused: make none;
        kind_of 2 = text; try_kind_of 1 = none; len_of 0 = 1; try_len_of 4 = 1; try_len_of 5 = 1; len_of 6 = 0;
        len_of 7 = 0; int_of 3 = 1000; try_int_of 2 = WrongKind; dict_key_by 0 beside 7 = 0;
        try_dict_key_by 0 beside text a text of more than sixteen bytes = NoSuchKey;
        list_set 3 into 4 at 0 = none; kind_of 3 = none; try_list_set 3 into 4 at 0 = 1000; int_of 3 = 1000",
    ..PLACES
};

/// It is made, in a new place.
const MADE: &[Case] = &[
    Case {
        name: "make_at: a refused none changes nothing",
        on: EIGHT,
        steps: "growths refused: make none;
            release_all; settle; ledger = 7 born, 7 freed",
    },
    Case {
        name: "make_at: a refused true changes nothing",
        on: EIGHT,
        steps: "growths refused: make true;
            release_all; settle; ledger = 7 born, 7 freed",
    },
    Case {
        name: "make_at: a refused globals changes nothing",
        on: EIGHT,
        steps: "growths refused: make globals;
            release_all; settle; ledger = 7 born, 7 freed",
    },
    Case {
        name: "make_at: a refused int changes nothing",
        on: EIGHT,
        steps: "growths refused: make int 1000;
            release_all; settle; ledger = 8 born, 8 freed",
    },
    Case {
        name: "make_at: a refused text changes nothing",
        on: EIGHT,
        steps: "growths refused: make text a text of more than sixteen bytes;
            release_all; settle; ledger = 8 born, 8 freed",
    },
    Case {
        name: "make_at: a refused list changes nothing",
        on: EIGHT,
        steps: "growths refused: make list;
            release_all; settle; ledger = 8 born, 8 freed",
    },
    Case {
        name: "make_at: a refused dict changes nothing",
        on: EIGHT,
        steps: "growths refused: make dict;
            release_all; settle; ledger = 8 born, 8 freed",
    },
    Case {
        name: "make_at: a refused mailbox changes nothing",
        on: EIGHT,
        steps: "growths refused: make mailbox;
            release_all; settle; ledger = 8 born, 8 freed",
    },
];

/// What a container of each kind gives goes into a new place.
const GIVEN: &[Case] = &[
    Case {
        name: "try_give_at by list_pop: a refused place changes nothing",
        on: EIGHT,
        steps: "growths refused: try_list_pop 4 to last = 0;
            release_all; settle; ledger = 7 born, 7 freed",
    },
    Case {
        name: "try_give_at by list_get: a refused place changes nothing",
        on: EIGHT,
        steps: "growths refused: try_list_get 4 at 0 to last = 0;
            release_all; settle; ledger = 7 born, 7 freed",
    },
    Case {
        name: "try_give_at by list_take: a refused place changes nothing",
        on: EIGHT,
        steps: "growths refused: try_list_take 4 at 0 to last = 0;
            release_all; settle; ledger = 7 born, 7 freed",
    },
    Case {
        name: "try_give_at by recv: a refused place changes nothing",
        on: EIGHT,
        steps: "growths refused: try_recv 5 to last = 0;
            release_all; settle; ledger = 7 born, 7 freed",
    },
    Case {
        name: "try_give_at by dict_find_by: a refused place changes nothing",
        on: EIGHT,
        steps: "growths refused: try_dict_find_by 0 beside 7 to last = 0;
            release_all; settle; ledger = 7 born, 7 freed",
    },
    Case {
        name: "try_give_at by dict_del_by: a refused place changes nothing",
        on: EIGHT,
        steps: "growths refused: try_dict_del_by 0 beside 7 to last = 0;
            release_all; settle; ledger = 7 born, 7 freed",
    },
    Case {
        name: "give_at by list_pop: a refused place changes nothing",
        on: EIGHT,
        steps: "growths refused: list_pop 4 to last = 0;
            release_all; settle; ledger = 7 born, 7 freed",
    },
    Case {
        name: "give_at by list_get: a refused place changes nothing",
        on: EIGHT,
        steps: "growths refused: list_get 4 at 0 to last = 0;
            release_all; settle; ledger = 7 born, 7 freed",
    },
    Case {
        name: "give_at by list_take: a refused place changes nothing",
        on: EIGHT,
        steps: "growths refused: list_take 4 at 0 to last = 0;
            release_all; settle; ledger = 7 born, 7 freed",
    },
    Case {
        name: "give_at by recv: a refused place changes nothing",
        on: EIGHT,
        steps: "growths refused: recv 5 to last = 0;
            release_all; settle; ledger = 7 born, 7 freed",
    },
    Case {
        name: "give_at by dict_find_by: a refused place changes nothing",
        on: EIGHT,
        steps: "growths refused: dict_find_by 0 beside 7 to last = 0;
            release_all; settle; ledger = 7 born, 7 freed",
    },
    Case {
        name: "give_at by dict_del_by: a refused place changes nothing",
        on: EIGHT,
        steps: "growths refused: dict_del_by 0 beside 7 to last = 0;
            release_all; settle; ledger = 7 born, 7 freed",
    },
];

/// None goes into a container, so that it grows; a text is copied.
const TAKEN: &[Case] = &[
    Case {
        name: "try_take_at by list_push: a refused entry changes nothing",
        on: EIGHT,
        steps: "growths refused: try_list_push 1 into 6;
            release_all; settle; ledger = 7 born, 7 freed",
    },
    Case {
        name: "try_take_at by send: a refused entry changes nothing",
        on: EIGHT,
        steps: "growths refused: try_send 1 into 7;
            release_all; settle; ledger = 7 born, 7 freed",
    },
    Case {
        name: "try_take_at by dict_set: a refused entry changes nothing",
        on: EIGHT,
        steps: "growths refused: try_dict_set 1 into 0 beside text a text of more than sixteen bytes;
            release_all; settle; ledger = 7 born, 7 freed",
    },
    Case {
        name: "try_text_at: a refused copy changes nothing",
        on: EIGHT,
        steps: "growths refused: try_text_of 2 = a text of more than sixteen bytes;
            release_all; settle; ledger = 7 born, 7 freed",
    },
    Case {
        name: "take_at by list_push: a refused entry changes nothing",
        on: EIGHT,
        steps: "growths refused: list_push 1 into 6;
            release_all; settle; ledger = 7 born, 7 freed",
    },
    Case {
        name: "take_at by send: a refused entry changes nothing",
        on: EIGHT,
        steps: "growths refused: send 1 into 7;
            release_all; settle; ledger = 7 born, 7 freed",
    },
    Case {
        name: "take_at by dict_set: a refused entry changes nothing",
        on: EIGHT,
        steps: "growths refused: dict_set 1 into 0 beside text a text of more than sixteen bytes;
            release_all; settle; ledger = 7 born, 7 freed",
    },
    Case {
        name: "text_at: a refused copy changes nothing",
        on: EIGHT,
        steps: "growths refused: text_of 2 = a text of more than sixteen bytes;
            release_all; settle; ledger = 7 born, 7 freed",
    },
];

#[test]
fn a_refused_call_by_place_changes_nothing(rt: HostRuntime) {
    for cases in [MADE, GIVEN, TAKEN] {
        plays_all(&rt, rt.alloc(), cases);
    }
}
