// Posting the items of an accepted file on a turnover sheet, or on none of it: a refusal leaves the sheet as it stood. Promised, for every
// body and every list of at most 64 participants: what `PostsItems` of specs/Items.antt says. Stands on `booking` for the items, and on
// `listing` for checking's refusals, which an answer can hold.
#![tactic(auto)]

ghost use Rattle.std.specs.Prelude.{◌≡◌, map, ◌≤◌, length};
ghost use Rattle.item_reader.specs.Slips.{slips_from};
ghost use Rattle.turnovers.specs.Scheme.{posting_of};
ghost use Rattle.item_posting.specs.Items.{PostsItems, unposted_number};
ghost use Rattle.item_posting.specs.declared.PostError.TheVariants.{Refused};

use listing::checking::Unchecked;

// Why a file is not posted: the list's refusal, checking's own, then 20, 21, 22.
#[derive(Clone, Copy, Debug, PartialEq, Eq)]
pub enum PostError {
    BadList,
    Refused(Unchecked),
    HasFaults,
    NotListed,
    TooLarge,
}

impl From<Unchecked> for PostError {
    ghost from_gives = { λ refusal error. error ≡ Refused refusal };

    fn from(refusal: Unchecked) -> PostError {
        PostError::Refused(refusal)
    }
}

// Document 02's number of a refusal.
impl From<PostError> for u32 {
    ghost from_gives = { λ error number. number ≡ unposted_number error };

    fn from(error: PostError) -> u32 {
        match error {
            PostError::BadList => 19,
            PostError::Refused(refusal) => u32::from(refusal),
            PostError::HasFaults => 20,
            PostError::NotListed => 21,
            PostError::TooLarge => 22,
        }
    }
}

// The items of an accepted file. All goes to a copy, which is stored once, so that a refusal found on the way leaves the sheet alone.
pub fn post_items(codes: &[u32], turnovers: &mut [i64; 256], s: &[u8]) -> Result<(), PostError>
    requires { length codes.now ≤ 64 }
    ensures { PostsItems codes.now turnovers.old (map posting_of (slips_from 1 s.now)) result turnovers.new }
{
    let mut work = *turnovers;
    let t = booking::book_items(codes, &mut work, s);
    if t.unlisted {
        return Err(PostError::NotListed);
    }
    if t.beyond {
        return Err(PostError::TooLarge);
    }
    *turnovers = work;
    Ok(())
}
