// The documents' cases, run through the public calls; each expectation is proved from their promises.
#![tactic(auto)]

// Rows that stand for events.
mod events;

// The run of rows, and the lines that it ends with.
mod journal;

// M1 to M6.
mod amounts;

// Dates, both ways.
mod dates;

// The journal of document 01.
mod worked;

// Sheets in tens, due days, what does not decode, and a negative headroom.
mod run_cases;

// Where the pencil slips.
mod slips;

// Document 00's two rehearsals.
mod rehearsals;

// Evenings with unpaid redemptions.
mod unpaid;

// Next terms that start by themselves.
mod next_terms;

// A table of structs, lent to the book.
mod structs;

fn main() {
    amounts::redemptions();
    amounts::values();
    dates::to_days();
    dates::to_dates();
    worked::journal();
    run_cases::sheets_in_tens();
    run_cases::due_within_a_year();
    run_cases::undecodable();
    run_cases::headroom_below_zero();
    slips::days_from_trading_days();
    slips::values_summed_then_rounded();
    slips::pledge_before_its_close();
    slips::smaller_day_paid_alone();
    slips::due_brought_forward();
    rehearsals::first();
    rehearsals::second();
    rehearsals::pledge_alone_late();
    unpaid::evenings();
    next_terms::twice();
    next_terms::too_large();
    next_terms::redeemed_early();
    next_terms::due_on_a_holiday();
    next_terms::posted_for_the_day();
    next_terms::not_normal();
    next_terms::turned_down();
    structs::first_trade();
}
