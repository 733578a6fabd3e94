//! Each growth of a container's call refused in turn, of a copy too: the call answers OutOfMemory and hands back what it
//! took, the object has as many entries as before, and the thread as many handles; with memory it then passes.

use crate::tests::worlds::{Case, FRAMES, OBJECTS, World, plays_all};

/// A new list is two threads', and no memory is left for its entries.
const LIST_OF_TWO: World = World {
    begins: "one: make list = 266; make globals; retain 0 = 266; dict_set 2 into 1 beside 7;
        two: make globals; dict_del_by 0 beside 7 to last = 266; starve",
    ..OBJECTS
};

/// A new mailbox is two threads', and no memory is left for its entries.
const MAILBOX_OF_TWO: World = World {
    begins: "one: make mailbox = 266; make globals; retain 0 = 266; dict_set 2 into 1 beside 7;
        two: make globals; dict_del_by 0 beside 7 to last = 266; starve",
    ..OBJECTS
};

/// A new dictionary is two threads', and no memory is left for its entries.
const DICT_OF_TWO: World = World {
    begins: "one: make dict = 266; make globals; retain 0 = 266; dict_set 2 into 1 beside 7;
        two: make globals; dict_del_by 0 beside 7 to last = 266; starve",
    ..OBJECTS
};

/// An entry is refused, another thread finds the container free and as it was, and with memory the entry goes in.
const ENTRIES: &[Case] = &[
    Case {
        name: "list_push: a refused entry changes nothing",
        on: LIST_OF_TWO,
        steps: "one: until refused: list_push none into 0; len_of 0 = n; two: try_len_of 1 = n;
            one: growths refused: list_push none into 0; two: release_all; one: release_all;
            two: settle; one: settle; ledger = 1 born, 1 freed",
    },
    Case {
        name: "try_list_push: a refused entry changes nothing",
        on: LIST_OF_TWO,
        steps: "one: until refused: try_list_push none into 0; len_of 0 = n; two: try_len_of 1 = n;
            one: growths refused: try_list_push none into 0; two: release_all; one: release_all;
            two: settle; one: settle; ledger = 1 born, 1 freed",
    },
    Case {
        name: "send: a refused entry changes nothing",
        on: MAILBOX_OF_TWO,
        steps: "one: until refused: send none into 0; len_of 0 = n; two: try_len_of 1 = n;
            one: growths refused: send none into 0; two: release_all; one: release_all;
            two: settle; one: settle; ledger = 1 born, 1 freed",
    },
    Case {
        name: "try_send: a refused entry changes nothing",
        on: MAILBOX_OF_TWO,
        steps: "one: until refused: try_send none into 0; len_of 0 = n; two: try_len_of 1 = n;
            one: growths refused: try_send none into 0; two: release_all; one: release_all;
            two: settle; one: settle; ledger = 1 born, 1 freed",
    },
    Case {
        name: "dict_put: a refused entry changes nothing",
        on: DICT_OF_TWO,
        steps: "one: until refused: dict_put none into 0 beside n; len_of 0 = n; two: try_len_of 1 = n;
            one: growths refused: dict_put none into 0 beside n; two: release_all; one: release_all;
            two: settle; one: settle; ledger = 1 born, 1 freed",
    },
    Case {
        name: "try_dict_put: a refused entry changes nothing",
        on: DICT_OF_TWO,
        steps: "one: until refused: try_dict_put none into 0 beside n; len_of 0 = n; two: try_len_of 1 = n;
            one: growths refused: try_dict_put none into 0 beside n; two: release_all; one: release_all;
            two: settle; one: settle; ledger = 1 born, 1 freed",
    },
    Case {
        name: "guard_put: a refused entry changes nothing",
        on: LIST_OF_TWO,
        steps: "one: until refused: guard_put none into 0; len_of 0 = n; two: try_len_of 1 = n;
            one: growths refused: guard_put none into 0; two: release_all; one: release_all;
            two: settle; one: settle; ledger = 1 born, 1 freed",
    },
    Case {
        name: "try_guard_put: a refused entry changes nothing",
        on: LIST_OF_TWO,
        steps: "one: until refused: try_guard_put none into 0; len_of 0 = n; two: try_len_of 1 = n;
            one: growths refused: try_guard_put none into 0; two: release_all; one: release_all;
            two: settle; one: settle; ledger = 1 born, 1 freed",
    },
];

/// A list, a mailbox or a dictionary with None, and a frame that has no place left.
const LIST: World = World {
    begins: "make list; list_push none into 0; starve; until refused: make none",
    ..FRAMES
};

const MAILBOX: World = World {
    begins: "make mailbox; send none into 0; starve; until refused: make none",
    ..FRAMES
};

const DICT: World = World {
    begins: "make dict; dict_put none into 0 beside 0; starve; until refused: make none",
    ..FRAMES
};

/// A handle's place is refused, and with memory it is had.
const GIVEN: &[Case] = &[
    Case {
        name: "list_pop: a refused place changes nothing",
        on: LIST,
        steps: "growths refused: list_pop 0 = none; release_all; settle; ledger = 1 born, 1 freed",
    },
    Case {
        name: "try_list_pop: a refused place changes nothing",
        on: LIST,
        steps: "growths refused: try_list_pop 0 = none; release_all; settle; ledger = 1 born, 1 freed",
    },
    Case {
        name: "list_get: a refused place changes nothing",
        on: LIST,
        steps: "growths refused: list_get 0 at 0 = none; release_all; settle; ledger = 1 born, 1 freed",
    },
    Case {
        name: "try_list_get: a refused place changes nothing",
        on: LIST,
        steps: "growths refused: try_list_get 0 at 0 = none; release_all; settle; ledger = 1 born, 1 freed",
    },
    Case {
        name: "list_take: a refused place changes nothing",
        on: LIST,
        steps: "growths refused: list_take 0 at 0 = none; release_all; settle; ledger = 1 born, 1 freed",
    },
    Case {
        name: "try_list_take: a refused place changes nothing",
        on: LIST,
        steps: "growths refused: try_list_take 0 at 0 = none; release_all; settle; ledger = 1 born, 1 freed",
    },
    Case {
        name: "recv: a refused place changes nothing",
        on: MAILBOX,
        steps: "growths refused: recv 0 = none; release_all; settle; ledger = 1 born, 1 freed",
    },
    Case {
        name: "try_recv: a refused place changes nothing",
        on: MAILBOX,
        steps: "growths refused: try_recv 0 = none; release_all; settle; ledger = 1 born, 1 freed",
    },
    Case {
        name: "dict_find: a refused place changes nothing",
        on: DICT,
        steps: "growths refused: dict_find 0 beside 0 = none; release_all; settle; ledger = 1 born, 1 freed",
    },
    Case {
        name: "try_dict_find: a refused place changes nothing",
        on: DICT,
        steps: "growths refused: try_dict_find 0 beside 0 = none; release_all; settle; ledger = 1 born, 1 freed",
    },
    Case {
        name: "dict_del: a refused place changes nothing",
        on: DICT,
        steps: "growths refused: dict_del 0 beside 0 = none; release_all; settle; ledger = 1 born, 1 freed",
    },
    Case {
        name: "try_dict_del: a refused place changes nothing",
        on: DICT,
        steps: "growths refused: try_dict_del 0 beside 0 = none; release_all; settle; ledger = 1 born, 1 freed",
    },
    Case {
        name: "guard_entry: a refused place changes nothing",
        on: LIST,
        steps: "growths refused: guard_entry 0 at 0 = none; release_all; settle; ledger = 1 born, 1 freed",
    },
    Case {
        name: "try_guard_entry: a refused place changes nothing",
        on: LIST,
        steps: "growths refused: try_guard_entry 0 at 0 = none; release_all; settle; ledger = 1 born, 1 freed",
    },
    Case {
        name: "guard_take: a refused place changes nothing",
        on: LIST,
        steps: "growths refused: guard_take 0 at 0 = none; release_all; settle; ledger = 1 born, 1 freed",
    },
    Case {
        name: "try_guard_take: a refused place changes nothing",
        on: LIST,
        steps: "growths refused: try_guard_take 0 at 0 = none; release_all; settle; ledger = 1 born, 1 freed",
    },
];

/// A text, or a dictionary with a number's key and then a text's.
const TEXT: World = World {
    scarce: 1 << 15,
    begins: "new_text a text of more than sixteen bytes; starve; until refused: make none",
    ..FRAMES
};

const TWO_KEYS: World = World {
    scarce: 1 << 15,
    begins: "make dict; dict_put none into 0 beside 7; dict_put none into 0 beside text a text of more than sixteen bytes;
        starve; until refused: make none",
    ..FRAMES
};

/// A copy is refused, and with memory it is as it should be.
const COPIES: &[Case] = &[
    Case {
        name: "text_of: a refused copy changes nothing",
        on: TEXT,
        steps: "growths refused: text_of 0 = a text of more than sixteen bytes;
            release_all; settle; ledger = 1 born, 1 freed",
    },
    Case {
        name: "try_text_of: a refused copy changes nothing",
        on: TEXT,
        steps: "growths refused: try_text_of 0 = a text of more than sixteen bytes;
            release_all; settle; ledger = 1 born, 1 freed",
    },
    Case {
        name: "text_into: a refused copy changes nothing",
        on: TEXT,
        steps: "growths refused: text_into 0 = a text of more than sixteen bytes;
            release_all; settle; ledger = 1 born, 1 freed",
    },
    Case {
        name: "try_text_into: a refused copy changes nothing",
        on: TEXT,
        steps: "growths refused: try_text_into 0 = a text of more than sixteen bytes;
            release_all; settle; ledger = 1 born, 1 freed",
    },
    Case {
        name: "dict_key: a refused copy changes nothing",
        on: TWO_KEYS,
        steps: "growths refused: dict_key 0 at 1 beside text a text of more than sixteen bytes;
            release_all; settle; ledger = 1 born, 1 freed",
    },
    Case {
        name: "try_dict_key: a refused copy changes nothing",
        on: TWO_KEYS,
        steps: "growths refused: try_dict_key 0 at 1 beside text a text of more than sixteen bytes;
            release_all; settle; ledger = 1 born, 1 freed",
    },
    Case {
        name: "dict_pair: a refused copy changes nothing",
        on: TWO_KEYS,
        steps: "growths refused: dict_pair 0 at 1 beside text a text of more than sixteen bytes = none;
            release_all; settle; ledger = 1 born, 1 freed",
    },
    Case {
        name: "try_dict_pair: a refused copy changes nothing",
        on: TWO_KEYS,
        steps: "growths refused: try_dict_pair 0 at 1 beside text a text of more than sixteen bytes = none;
            release_all; settle; ledger = 1 born, 1 freed",
    },
];

#[test]
fn a_refused_entry_changes_nothing(rt: HostRuntime) {
    plays_all(&rt, rt.alloc(), ENTRIES);
}

#[test]
fn a_refused_place_changes_nothing(rt: HostRuntime) {
    plays_all(&rt, rt.alloc(), GIVEN);
}

#[test]
fn a_refused_copy_changes_nothing(rt: HostRuntime) {
    plays_all(&rt, rt.alloc(), COPIES);
}
