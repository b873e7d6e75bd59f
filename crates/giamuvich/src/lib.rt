// The C functions (include/giamuvich.h), which giamuvich_c exports: plain numbers, byte slices and words that the driver lends.
// Each makes the settings where it has any, and calls the function of the same act in the crate of its layer or of its calls.

#![tactic(auto)]

mod blocks;
mod control;
mod field_acts;
mod master_acts;
mod message_acts;
mod receiver_acts;
mod sender_acts;
mod station_acts;
mod unchecked;
mod version;

pub use blocks::{
    gmv_hybrid_check, gmv_hybrid_read, gmv_hybrid_write, gmv_minimal_check, gmv_minimal_read,
    gmv_minimal_write, gmv_reader_fresh,
};
pub use control::{gmv_hybrid_control_block, gmv_minimal_control_block};
pub use field_acts::gmv_field_next;
pub use master_acts::{
    gmv_master_close, gmv_master_enquire, gmv_master_fresh, gmv_master_may_receive,
    gmv_master_open, gmv_master_reply, gmv_master_start, gmv_master_timer,
};
pub use message_acts::{gmv_answer_read, gmv_answer_write, gmv_control_write, gmv_header_read};
pub use receiver_acts::{
    gmv_hybrid_answer, gmv_hybrid_nak, gmv_minimal_answer, gmv_receiver_decide, gmv_receiver_fresh,
};
pub use sender_acts::{
    gmv_sender_block, gmv_sender_ended, gmv_sender_fresh, gmv_sender_open, gmv_sender_reset,
    gmv_sender_submit, gmv_sender_timer,
};
pub use station_acts::{
    gmv_station_bad, gmv_station_bare_enq, gmv_station_block, gmv_station_end, gmv_station_enquiry,
    gmv_station_fresh, gmv_station_interrupt, gmv_station_open,
};
pub use version::{VERSION_MAJOR, VERSION_MINOR, VERSION_PATCH, gmv_version};
