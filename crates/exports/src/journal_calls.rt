// The journal.
ghost use Rattle.std.specs.Prelude.{◌≡◌};
ghost use Rattle.journal.specs.Listing.{listing_text, answer_of, text_after};

use journal::listing::Written;

// The listing of any bytes, in front of a lent text: 14, a limit would be passed, where the text has no room for it.
#[unsafe(no_mangle)]
pub extern "C" fn journal_write_listing(journal: &[u8], text: &mut [u8]) -> Written
    ensures { let written = listing_text journal.now in
        (result ≡ answer_of written text.old)
        × (text.new ≡ text_after written text.old) }
{
    journal::listing::write_listing(journal, text).into()
}
