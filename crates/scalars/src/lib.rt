// A book's scalars, all of it but the rows: what an event leaves of them, and the tests on them that hold for any numbers.
#![tactic(auto)]

// The scalars, and what an event leaves beside the rows and the table.
pub mod done;
pub mod state;

// Headroom and the claims on the pledge, U, and the status of the day that opens.
pub mod headroom;
pub mod status;
pub mod unpaid;
