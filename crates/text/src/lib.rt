// Byte strings: characters, byte order, blocks, and fields at any place and of any width; counting and listing.
#![tactic(auto)]

pub mod blocks;
pub mod byte_order;
pub mod characters;
pub mod counting;
pub mod fields;
pub mod words;
