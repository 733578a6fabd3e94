//! The cases, and the player that takes their steps.

// The player.
mod calls;
mod came;
mod comparing;
mod containers;
mod ends;
mod frames;
mod guards;
mod leaving;
mod objects;
mod places;
mod player;
mod playing;
mod steps;
mod valued;
mod worlds;

// The cases.
mod by_place;
mod dicts;
mod keyed;
mod letters;
mod lists;
mod lives;
mod making;
mod refusals;
mod stack;
mod starving;
mod values;

// What is no row: numbers of threads, memory too small to begin with, two heaps, and a key's copy.
mod departing;
mod entering;
mod keys;
mod numbers;
mod opening;
mod phases;
mod two_heaps;
