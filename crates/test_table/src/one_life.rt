//! One object's whole life, as calls on one seat.

use crate::comparing::is;
use crate::helpers::claimed;
use crate::seats::{OfOne, Seat, Table, for_one};
use brc_block::{Block, Payload};
use brc_table::Found;
use brc_words::Kind;
use law::world::Dropped;
use std::alloc::Global;
use std::process::Abort;

/// A thread that has done nothing makes an integer at cell 266, and lets its one reference go.
struct Lives;

impl OfOne for Lives {
    fn run<R: Abort>(&self, rt: &R, alloc: Global, table: &Table, seat: &mut Seat) {
        match Block::new(alloc, 266, Payload::Int(7)) {
            Err((_, payload)) => {
                let _payload = payload;
                panic!(rt; "memory")
            }
            Ok(block) => {
                claimed(rt, table, seat, 266);
                table.init_local(seat, 266);
                table.init_shared(seat, 266);
                table.birth(seat, block, Kind::Int, 0);
                table.local_down(seat, Dropped::Frame(0), 266, 1);
                let Found { number, block } = table.see_zero(seat, 266);
                is(rt, number, 4_398_046_511_104);
                match block {
                    None => panic!(rt; "the object isn't dead"),
                    Some(block) => {
                        assert_eq!(rt; block.cell(), 266);
                        match block.into_payload() {
                            Payload::Int(number) => assert_eq!(rt; number, 7),
                            _ => panic!(rt; "another payload comes back"),
                        }
                        is(rt, table.free(seat, 266), 18_446_744_073_709_549_568);
                    }
                }
            }
        }
        is(rt, table.load_free(seat, 4), 18_446_744_073_709_550_592);
    }
}

#[test]
fn an_object_lives_its_whole_life(rt: HostRuntime) {
    for_one(&rt, &Lives);
}
