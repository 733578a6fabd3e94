//! What a run is to do, drawn at random, and what it comes to.

use brc_run::RunOptions;
use rand::RngExt;
use rand_core::Rng;

/// A heap has 64 threads at a time: the players, the last section, and the program's own, which clears the globals.
const MOST_PLAYERS: u32 = 62;

/// How many sections play; one more shares what they play with, and adds up what they got.
#[derive(Clone, Copy, Debug)]
pub struct Plan {
    pub players: u32,
    /// How many turns each plays.
    pub turns: u32,
    /// How many lists that hold themselves each leaves behind.
    pub left: u32,
    cells: u32,
    budget: usize,
    local_limit: u32,
}

impl Plan {
    /// A plan; few players have many turns, so that runs take about as long as each other.
    pub fn drawn<R: Rng>(rng: &mut R) -> Plan {
        let players = rng.random_range(1u32..MOST_PLAYERS + 1);
        let local_limit = match rng.random_range(0u32..3) {
            0 => 1,
            1 => 10,
            _ => 4_294_967_294,
        };
        Plan {
            players,
            turns: rng.random_range(1u32..2_000) / players.max(1) + 1,
            left: rng.random_range(0u32..4),
            cells: rng.random_range(4_096u32..65_537),
            budget: rng.random_range(1u32..65) as usize,
            local_limit,
        }
    }

    /// How its script is run.
    pub fn options(&self) -> RunOptions {
        RunOptions {
            cells: self.cells,
            budget: self.budget,
            local_limit: self.local_limit,
        }
    }

    /// The sum of all numbers: in its turn `i` a player gives four times the number `1000 + i` and its gift holds 7;
    /// two times 1,000 are there at first.
    pub fn sum(&self) -> u64 {
        let turns = u64::from(self.turns);
        let of_turns = 1_000 * turns + turns * (turns + 1) / 2;
        let of_player = of_turns.wrapping_mul(4).wrapping_add(7);
        of_player
            .wrapping_mul(u64::from(self.players))
            .wrapping_add(2_000)
    }

    /// How many objects are made: by a player 9 in a turn, its first number, its gift, and the lists that it leaves;
    /// for a player 2 sums; and by the last section 5 containers, 2 numbers and 2 sums.
    pub fn births(&self) -> u64 {
        let of_player = 9 * u64::from(self.turns) + 4 + u64::from(self.left);
        of_player
            .wrapping_mul(u64::from(self.players))
            .wrapping_add(9)
    }

    /// How many of them stay.
    pub fn remains(&self) -> u64 {
        u64::from(self.players) * u64::from(self.left)
    }
}
