// The static library libgiamuvich.a: the functions of include/giamuvich.h, each of which calls the function of its name in the
// library giamuvich and promises what that promises.

#![tactic(auto)]

mod blocks;
mod control;
mod field_acts;
mod master_acts;
mod message_acts;
mod receiver_acts;
mod sender_acts;
mod station_acts;
mod version;
