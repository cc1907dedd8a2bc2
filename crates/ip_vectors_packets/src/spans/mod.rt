//! Packets and chains as plain numbers.
mod chains;
mod contents;
mod packets;
mod runs;
mod samples;
mod texts;
mod writes;
