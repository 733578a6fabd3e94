//! What a thread's own log tells of what lives, and items by which it only lets go: definitions and laws.

pub mod laws;
