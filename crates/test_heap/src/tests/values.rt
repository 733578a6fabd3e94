//! Values: scalars, which are their entries, and objects with a note, in calls with and without values; and each growth
//! of a call that takes a value refused in turn.

use crate::tests::worlds::{Case, FRAMES, OBJECTS, SMALL, WIDE, World, plays_all};

const CASES: &[Case] = &[
    // 100 entries take one object, the list. Once it is dead, each of the 99 that are left is a turn of work.
    Case {
        name: "a list of scalars takes no cell beside its own, and no handle",
        on: SMALL,
        steps: "make list; 100 x list_push_value 3/7 into 0; len_of 0 = 100; handles = 1; ledger = 1 born, 0 freed;
            list_get_value 0 at 99 = 3/7; list_pop_value 0 = 3/7; handles = 1; ledger = 1 born, 0 freed;
            release 0; work 200 = 100; ledger = 1 born, 1 freed",
    },
    Case {
        name: "a note comes out as it went in, up to the greatest",
        on: SMALL,
        steps: "make list; list_push_value 4294967295/18446744073709551615 into 0; list_push_value 0/1 into 0;
            list_push_value int 300 with 4294967295/18446744073709551615 into 0; list_push_value 1/0 into 0;
            list_get_value 0 at 0 = 4294967295/18446744073709551615; list_get_value 0 at 1 = 0/1;
            list_get_value 0 at 2 = 300 with 4294967295/18446744073709551615; list_get_value 0 at 3 = 1/0;
            release 0; settle; ledger = 2 born, 2 freed",
    },
    Case {
        name: "None and the scalar with label 0 and bits 0 are one entry",
        on: SMALL,
        steps: "make list; list_push none into 0; list_push_value 0/0 into 0; list_push_value none with 0/0 into 0;
            list_get_value 0 at 0 = 0/0; list_get_value 0 at 1 = 0/0; list_get_value 0 at 2 = 0/0;
            list_get 0 at 0 = none; list_get 0 at 1 = none; list_get 0 at 2 = none;
            release 0; settle; ledger = 1 born, 1 freed",
    },
    Case {
        name: "None with a note is the scalar with that note",
        on: SMALL,
        steps: "make list; list_push_value none with 3/7 into 0; list_get_value 0 at 0 = 3/7; list_get 0 at 0 = none;
            list_set_value none with 3/8 into 0 at 0 = 3/7; list_pop_value 0 = 3/8;
            release 0; settle; ledger = 1 born, 1 freed",
    },
    // A call without values puts the note 0/0, and gives the reference alone.
    Case {
        name: "a list by calls with values and without",
        on: SMALL,
        steps: "make list; list_push int 300 into 0; list_get_value 0 at 0 = 300 with 0/0;
            list_set_value int 301 with 3/7 into 0 at 0 = 300 with 0/0; list_get 0 at 0 = 301;
            list_set int 302 into 0 at 0 = 301; list_get_value 0 at 0 = 302 with 0/0;
            list_set_value 3/8 into 0 at 0 = 302 with 0/0; list_get 0 at 0 = none;
            list_set int 303 into 0 at 0 = none; list_get_value 0 at 0 = 303 with 0/0;
            list_push_value 3/9 into 0; list_pop 0 = none; list_push_value int 304 with 3/9 into 0; list_pop 0 = 304;
            list_push_value list with 3/9 into 0; list_take 0 at 1 = list; list_take_value 0 at 0 = 303 with 0/0;
            list_pop_value 0 = NoSuchPlace; release 0; settle; ledger = 7 born, 7 freed",
    },
    Case {
        name: "so by those that never wait",
        on: SMALL,
        steps: "make list; try_list_push int 300 into 0; try_list_get_value 0 at 0 = 300 with 0/0;
            try_list_set_value int 301 with 3/7 into 0 at 0 = 300 with 0/0; try_list_get 0 at 0 = 301;
            try_list_set int 302 into 0 at 0 = 301; try_list_get_value 0 at 0 = 302 with 0/0;
            try_list_set_value 3/8 into 0 at 0 = 302 with 0/0; try_list_get 0 at 0 = none;
            try_list_set int 303 into 0 at 0 = none; try_list_get_value 0 at 0 = 303 with 0/0;
            try_list_push_value 3/9 into 0; try_list_pop 0 = none;
            try_list_push_value int 304 with 3/9 into 0; try_list_pop 0 = 304;
            try_list_push_value list with 3/9 into 0; try_list_take 0 at 1 = list;
            try_list_take_value 0 at 0 = 303 with 0/0; try_list_pop_value 0 = NoSuchPlace;
            release 0; settle; ledger = 7 born, 7 freed",
    },
    Case {
        name: "each of a scalar and an object for each",
        on: SMALL,
        steps: "make list; list_push_value 3/1 into 0; list_set_value 3/2 into 0 at 0 = 3/1;
            list_set_value int 300 with 3/3 into 0 at 0 = 3/2; handles = 1;
            list_set_value int 301 with 3/4 into 0 at 0 = 300 with 3/3; handles = 1;
            list_set_value 3/5 into 0 at 0 = 301 with 3/4; handles = 1; list_get_value 0 at 0 = 3/5;
            release 0; settle; ledger = 3 born, 3 freed",
    },
    Case {
        name: "a value is put at an entry, or at the end",
        on: SMALL,
        steps: "make list; list_put_value 3/1 into 0 at 1 = NoSuchPlace; list_put_value 3/1 into 0 at 0;
            try_list_put_value int 300 with 3/2 into 0 at 1; list_put_value 3/3 into 0 at 1 = 300 with 3/2;
            try_list_put_value 3/4 into 0 at 0 = 3/1; try_list_put_value 3/5 into 0 at 3 = NoSuchPlace; len_of 0 = 2;
            list_get_value 0 at 0 = 3/4; list_get_value 0 at 1 = 3/3; release 0; settle; ledger = 2 born, 2 freed",
    },
    Case {
        name: "later entries close up, each with its note",
        on: SMALL,
        steps: "make list; list_push_value 3/1 into 0; list_push_value int 300 with 3/2 into 0; list_push_value 3/3 into 0;
            list_push_value int 301 with 3/4 into 0; list_take_value 0 at 1 = 300 with 3/2;
            list_get_value 0 at 1 = 3/3; list_get_value 0 at 2 = 301 with 3/4; try_list_take_value 0 at 0 = 3/1;
            list_get_value 0 at 0 = 3/3; list_get_value 0 at 1 = 301 with 3/4;
            release 0; settle; ledger = 3 born, 3 freed",
    },
    Case {
        name: "a mailbox by calls with values and without",
        on: SMALL,
        steps: "make mailbox; send_value 3/1 into 0; send int 300 into 0; send_value int 301 with 3/2 into 0;
            try_send_value 3/3 into 0; try_send_value int 302 with 3/4 into 0; recv_value 0 = 3/1;
            try_recv_value 0 = 300 with 0/0; recv 0 = 301; try_recv 0 = none; recv_value 0 = 302 with 3/4;
            recv_value 0 = NoSuchPlace; try_recv_value 0 = NoSuchPlace;
            release 0; settle; ledger = 4 born, 4 freed",
    },
    Case {
        name: "a dictionary by calls with values and without",
        on: SMALL,
        steps: "make dict; dict_set_value 3/1 into 0 beside 7; dict_find_by 0 beside 7 = none;
            dict_find_value 0 beside 7 = 3/1; dict_set_value int 300 with 3/2 into 0 beside text a key;
            dict_find_by 0 beside text a key = 300; try_dict_find_value 0 beside text a key = 300 with 3/2;
            dict_pair_value 0 at 0 beside 7 = 3/1; try_dict_pair_value 0 at 1 beside text a key = 300 with 3/2;
            dict_pair_value 0 at 2 beside 7 = NoSuchPlace; dict_set int 301 into 0 beside 7 = none;
            dict_find_value 0 beside 7 = 301 with 0/0; try_dict_set_value 3/3 into 0 beside 7 = 301 with 0/0;
            try_dict_set_value 3/4 into 0 beside text a key = 300 with 3/2; dict_find_value 0 beside 8 = NoSuchKey;
            dict_del_value 0 beside 7 = 3/3; try_dict_del_value 0 beside 7 = NoSuchKey;
            dict_pair_value 0 at 0 beside text a key = 3/4; try_dict_del_value 0 beside text a key = 3/4; len_of 0 = 0;
            release 0; settle; ledger = 3 born, 3 freed",
    },
    Case {
        name: "a value goes beside a key that is new, and comes back from one that isn't",
        on: SMALL,
        steps: "make dict; make list; dict_put_new_value 3/1 into 0 beside 7; try_dict_put_new_value 3/2 into 0 beside 7 = 3/2;
            dict_put_new_value int 300 with 3/3 into 0 beside 7 = 300 with 3/3; dict_find_value 0 beside 7 = 3/1;
            try_dict_put_new_value int 301 with 3/4 into 0 beside text a key; len_of 0 = 2;
            dict_put_new_value 3/5 into 0 beside text a key = 3/5; dict_del_value 0 beside 7 = 3/1;
            dict_put_new_value 3/6 into 0 beside 7; dict_pair_value 0 at 1 beside 7 = 3/6;
            dict_put_new_value 3/7 into 1 beside 7 = WrongKind; release_all; settle; ledger = 4 born, 4 freed",
    },
    Case {
        name: "what isn't of the call's kind takes no value, and gives none",
        on: SMALL,
        steps: "make list; make dict; make mailbox; list_push_value 3/7 into 1 = WrongKind; send_value 3/7 into 0 = WrongKind;
            list_set_value int 300 with 3/7 into 2 at 0 = WrongKind; list_put_value 3/7 into 1 at 0 = WrongKind;
            dict_set_value int 301 with 3/7 into 0 beside 7 = WrongKind; list_get_value 1 at 0 = WrongKind;
            list_pop_value 2 = WrongKind; list_take_value 1 at 0 = WrongKind; recv_value 0 = WrongKind;
            dict_find_value 2 beside 7 = WrongKind; dict_del_value 0 beside 7 = WrongKind;
            dict_pair_value 0 at 0 beside 7 = WrongKind; release_all; settle; ledger = 5 born, 5 freed",
    },
    Case {
        name: "what another thread has locked is busy, and the value is handed back",
        on: WIDE,
        steps: "one: make globals; two: make globals; dict_set_value 3/1 into 0 beside 7;
            while one holds 0: try_dict_set_value 3/2 into 0 beside 7 = Busy;
            while one holds 0: try_dict_set_value int 300 with 3/2 into 0 beside 7 = Busy;
            while one holds 0: try_dict_find_value 0 beside 7 = Busy;
            while one holds 0: try_dict_del_value 0 beside 7 = Busy;
            while one holds 0: try_dict_pair_value 0 at 0 beside 7 = Busy;
            try_dict_del_value 0 beside 7 = 3/1; release_all; settle; ledger = 1 born, 1 freed",
    },
    // What its maker noted another thread finds, also once the maker has left.
    Case {
        name: "a list of values passes to another thread",
        on: SMALL,
        steps: "one: make list; list_push_value 3/7 into 0; list_push_value int 300 with 3/8 into 0; make globals;
            dict_set_value list with 5/5 into 1 beside 8; dict_set 0 into 1 beside 7; release_all;
            two: make globals; dict_find_value 0 beside 8 = list with 5/5; dict_del_by 0 beside 7 to last;
            one: leave_after 0 = 3 born, 0 freed;
            two: list_get_value 1 at 0 = 3/7; list_pop_value 1 = 300 with 3/8; dict_del_value 0 beside 8 = list with 5/5;
            release_all; settle; ledger = 0 born, 3 freed",
    },
    // The step's own None takes the last place, and then there is none for it either.
    Case {
        name: "a full frame looks at scalars, and nothing else",
        on: World {
            ample: 1 << 24,
            ..SMALL
        },
        steps: "make list; list_push_value 3/1 into 0; list_push_value true with 3/2 into 0; 65534 x make none;
            list_set_value 3/3 into 0 at 1 = FrameFull; list_set_value 3/4 into 0 at 0 = 3/1; make none;
            list_get_value 0 at 0 = 3/4; list_get_value 0 at 1 = FrameFull; list_take_value 0 at 0 = FrameFull;
            list_pop_value 0 = FrameFull; list_push_value 3/5 into 0 = FrameFull; len_of 0 = 2; handles = 65536;
            release_all; settle; ledger = 1 born, 1 freed",
    },
];

/// A new list is two threads', and no memory is left for its entries.
const LIST_OF_TWO: World = World {
    begins: "one: make list = 266; make globals; retain 0 = 266; dict_set 2 into 1 beside 7;
        two: make globals; dict_del_by 0 beside 7 to last = 266; starve",
    ..OBJECTS
};

/// A new mailbox is two threads', and no memory is left for its entries.
const MAILBOX_OF_TWO: World = World {
    begins: "one: make mailbox = 266; make globals; retain 0 = 266; dict_set 2 into 1 beside 7;
        two: make globals; dict_del_by 0 beside 7 to last = 266; starve",
    ..OBJECTS
};

/// A new dictionary is two threads', and no memory is left for its entries.
const DICT_OF_TWO: World = World {
    begins: "one: make dict = 266; make globals; retain 0 = 266; dict_set 2 into 1 beside 7;
        two: make globals; dict_del_by 0 beside 7 to last = 266; starve",
    ..OBJECTS
};

/// An entry is refused, another thread finds the container free and as it was, and with memory the entry goes in.
const ENTRIES: &[Case] = &[
    Case {
        name: "list_push_value of a scalar",
        on: LIST_OF_TWO,
        steps: "one: until refused: list_push_value 3/7 into 0; len_of 0 = n; two: try_len_of 1 = n;
            one: growths refused: list_push_value 3/7 into 0; two: release_all; one: release_all;
            two: settle; one: settle; ledger = 1 born, 1 freed",
    },
    Case {
        name: "try_list_push_value of an object",
        on: LIST_OF_TWO,
        steps: "one: until refused: try_list_push_value true with 3/7 into 0; len_of 0 = n; two: try_len_of 1 = n;
            one: growths refused: try_list_push_value true with 3/7 into 0; two: release_all; one: release_all;
            two: settle; one: settle; ledger = 1 born, 1 freed",
    },
    Case {
        name: "send_value of a scalar",
        on: MAILBOX_OF_TWO,
        steps: "one: until refused: send_value 3/7 into 0; len_of 0 = n; two: try_len_of 1 = n;
            one: growths refused: send_value 3/7 into 0; two: release_all; one: release_all;
            two: settle; one: settle; ledger = 1 born, 1 freed",
    },
    Case {
        name: "try_send_value of an object",
        on: MAILBOX_OF_TWO,
        steps: "one: until refused: try_send_value true with 3/7 into 0; len_of 0 = n; two: try_len_of 1 = n;
            one: growths refused: try_send_value true with 3/7 into 0; two: release_all; one: release_all;
            two: settle; one: settle; ledger = 1 born, 1 freed",
    },
    Case {
        name: "dict_set_value of an object",
        on: DICT_OF_TWO,
        steps: "one: until refused: dict_set_value true with 3/7 into 0 beside n; len_of 0 = n; two: try_len_of 1 = n;
            one: growths refused: dict_set_value true with 3/7 into 0 beside n; two: release_all; one: release_all;
            two: settle; one: settle; ledger = 1 born, 1 freed",
    },
    Case {
        name: "dict_put_new_value of an object, and of a key that is there without memory",
        on: DICT_OF_TWO,
        steps: "one: until refused: dict_put_new_value true with 3/7 into 0 beside n; len_of 0 = n; two: try_len_of 1 = n;
            one: growths refused: dict_put_new_value true with 3/7 into 0 beside n; starve;
            dict_put_new_value 3/8 into 0 beside n = 3/8; two: release_all; one: release_all;
            two: settle; one: settle; ledger = 1 born, 1 freed",
    },
    Case {
        name: "try_dict_set_value of a scalar, beside a text's key",
        on: World {
            begins: "make dict; try_dict_set_value 3/0 into 0 beside -1; starve",
            ..OBJECTS
        },
        steps: "until refused: try_dict_set_value 3/7 into 0 beside n; len_of 0 = 1+n;
            growths refused more than once: try_dict_set_value 3/8 into 0 beside text a key of its own; len_of 0 = 2+n;
            starve; try_dict_set_value 3/9 into 0 beside text a key of its own = 3/8; dict_find_value 0 beside -1 = 3/0;
            release_all; settle; ledger = 1 born, 1 freed",
    },
    Case {
        name: "list_put_value at the end, and into an entry without memory",
        on: World {
            begins: "make list; starve",
            ..OBJECTS
        },
        steps: "growths refused: list_put_value 3/7 into 0 at 0; starve; list_put_value 3/8 into 0 at 0 = 3/7;
            list_set_value true with 3/9 into 0 at 0 = 3/8; list_set_value 3/7 into 0 at 0 = true with 3/9;
            release_all; settle; ledger = 1 born, 1 freed",
    },
];

/// A list with a scalar and an object, and a frame that has no place left.
const LIST: World = World {
    begins: "make list; list_push_value 3/7 into 0; list_push_value true with 3/8 into 0; starve;
        until refused: make none",
    ..FRAMES
};

/// An object's place is refused, and with memory it is had. A scalar takes no memory.
const GIVEN: &[Case] = &[
    Case {
        name: "list_get_value",
        on: LIST,
        steps: "list_get_value 0 at 0 = 3/7; try_list_get_value 0 at 0 = 3/7;
            growths refused: list_get_value 0 at 1 = true with 3/8; release_all; settle; ledger = 1 born, 1 freed",
    },
    Case {
        name: "list_take_value",
        on: LIST,
        steps: "list_take_value 0 at 0 = 3/7; growths refused: list_take_value 0 at 0 = true with 3/8;
            release_all; settle; ledger = 1 born, 1 freed",
    },
    Case {
        name: "try_list_pop_value",
        on: LIST,
        steps: "growths refused: try_list_pop_value 0 = true with 3/8; starve; try_list_pop_value 0 = 3/7;
            release_all; settle; ledger = 1 born, 1 freed",
    },
    Case {
        name: "dict_pair_value",
        on: World {
            scarce: 1 << 15,
            begins: "make dict; dict_set_value true with 3/8 into 0 beside text a key of more bytes; starve;
                until refused: make none",
            ..FRAMES
        },
        steps: "growths refused more than once: dict_pair_value 0 at 0 beside text a key of more bytes = true with 3/8;
            release_all; settle; ledger = 1 born, 1 freed",
    },
];

#[test]
fn values_come_out_as_they_went_in(rt: HostRuntime) {
    plays_all(&rt, rt.alloc(), CASES);
}

#[test]
fn a_refused_value_changes_nothing(rt: HostRuntime) {
    plays_all(&rt, rt.alloc(), ENTRIES);
}

#[test]
fn a_refused_place_of_a_value_changes_nothing(rt: HostRuntime) {
    plays_all(&rt, rt.alloc(), GIVEN);
}
