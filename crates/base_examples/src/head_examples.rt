//! The heads of requests and replies at work: their fields, their numbers and what is due to them
//! (RFC 9110, RFC 9112).
ghost use Rattle.std.specs.Prelude.{◌≡◌, ◌<◌, ◌≤◌, ◌∷◌, ◌++◌, [], ℕ, List, true, false, Some, None, length, codes};
ghost use Rattle.httparse.specs.Grammar.{RequestHead, ResponseHead, ReadsResponse, print_response, status_code};
ghost use Rattle.head_fields.specs.Fields.{same_name, only, lacks};
ghost use Rattle.head_fields.specs.Numbers.{number, only_number};
ghost use Rattle.head_fields.specs.declared.number.Number.TheVariants.{Absent, Told, Broken};
ghost use Rattle.request_head.specs.declared.method.Method.TheVariants.{Get, Head, Post, Other};
ghost use Rattle.request_head.specs.declared.head_refusal.HeadRefusal.TheVariants.{LengthRequired, TooLarge};
ghost use Rattle.request_head.specs.declared.after.After.TheVariants as after;
ghost use Rattle.request_head.specs.Heads.{IsHead, IsNoHead};
ghost use Rattle.request_head.specs.HeadFields.{method_named, limit_at, is_close, closes, after_told, refusal};
ghost use Rattle.reply_reader.specs.Replies.{IsReplyHead, HasNoReply, size_of, size_of_fields};
ghost use Rattle.base_examples.specs.HeadExamples.{reply_of};

/// Names of fields are the same in any case of letters.
pub fn a_name_is_the_same_in_any_case()
    ensures same { same_name (codes "Content-LENGTH") (codes "content-length") ≡ true }
    ensures other { same_name (codes "Content-Size") (codes "content-length") ≡ false }
{}

/// A number has 1 to so many digits, and nothing but digits.
pub fn a_number_has_one_digit_or_more_up_to_a_limit()
    ensures none { number 3 [] ≡ Broken }
    ensures all { number 3 (codes "123") ≡ Told 123 }
    ensures one_more { number 3 (codes "1234") ≡ Broken }
    ensures sign { number 3 (codes "+12") ≡ Broken }
{}

/// A field that comes twice isn't lacking, tells no number, and has no value alone.
pub fn a_field_that_comes_twice_is_not_lacking_and_tells_nothing()
    ensures lacking { lacks (codes "a") ((codes "A", codes "1") ∷ (codes "b", codes "2") ∷ (codes "a", codes "1") ∷ []) ≡ false }
    ensures alone { only (codes "1" ∷ codes "1" ∷ []) ≡ None }
    ensures number { only_number 3 (codes "1" ∷ codes "1" ∷ []) ≡ Broken }
{}

/// A field that is lacking tells no number either, and that is no fault.
pub fn a_field_that_is_lacking_is_absent()
    ensures lacking { lacks (codes "a") ((codes "b", codes "2") ∷ []) ≡ true }
    ensures number { only_number 3 [] ≡ Absent }
{}

/// X-Swarming-After has 1 to 19 digits.
pub fn the_length_of_a_log_has_19_digits_at_most()
    ensures all { after_told ((codes "X-Swarming-After", codes "1000000000000000000") ∷ []) ≡ after.Front 1000000000000000000 }
    ensures one_more { after_told ((codes "X-Swarming-After", codes "10000000000000000000") ∷ []) ≡ after.Broken }
{}

/// The body of a request has 65536 bytes at most, and 16777216 where the target begins with `/blobs/`.
pub fn the_limit_of_a_body_is_greater_for_blobs()
    ensures blob { limit_at (codes "/blobs/default") ≡ 16777216 }
    ensures other { limit_at (codes "/bot/poll") ≡ 65536 }
    ensures at_the_limit { refusal Post (Told 65536) false 65536 ≡ None }
    ensures above { refusal Post (Told 65537) false 65536 ≡ Some (TooLarge 65536) }
{}

/// A connection closes by the token `close`, in any case, and with version 1.0.
#[tactic(auto, unfolding(httparse::specs::Grammar::trim_ows))]
pub fn a_connection_closes_by_its_token_or_its_version()
    ensures token { is_close (codes " Close") ≡ true }
    ensures asked { closes 1 ((codes "Connection", codes "keep-alive, CLOSE") ∷ []) ≡ true }
    ensures not_asked { closes 1 ((codes "Connection", codes "keep-alive") ∷ []) ≡ false }
    ensures version { closes 0 [] ≡ true }
{}

/// A transfer coding is refused beside a length too, and a method with a body needs a length.
pub fn a_body_is_told_by_a_length_alone()
    ensures coded { refusal Post (Told 2) true 65536 ≡ Some LengthRequired }
    ensures coded_without_length { refusal Get Absent true 65536 ≡ Some LengthRequired }
    ensures without_length { refusal Post Absent false 65536 ≡ Some LengthRequired }
    ensures no_body { refusal Get Absent false 65536 ≡ None }
{}

/// The name of a method is compared byte for byte, and HEAD needs no length.
pub fn a_method_is_named_in_upper_case()
    ensures head { method_named (codes "HEAD") ≡ Head }
    ensures other { method_named (codes "head") ≡ Other }
    ensures no_body { refusal Head Absent false 65536 ≡ None }
{}

/// A head with bytes behind it is no head.
pub fn a_head_has_nothing_behind_it()
    ensures { (text more : List ℕ) (byte : ℕ) (head : RequestHead) → IsHead text head → IsNoHead (text ++ byte ∷ more) }
{}

/// The code of a reply is the number that its three digits give.
pub fn the_code_of_a_reply_is_that_of_its_digits()
    ensures { status_code (reply_of (codes "404")) ≡ 404 }
{}

/// The size of a reply is told by one field, and is 16777216 at most.
pub fn the_size_of_a_reply_is_told_once_within_its_limit()
    ensures at_the_limit { size_of_fields ((codes "Content-Length", codes "16777216") ∷ []) ≡ Some 16777216 }
    ensures above { size_of_fields ((codes "Content-Length", codes "16777217") ∷ []) ≡ None }
    ensures twice { size_of_fields ((codes "Content-Length", codes "2") ∷ (codes "Content-Length", codes "3") ∷ []) ≡ None }
{}

/// A reply that ends before the body that its head tells of is none.
pub fn a_reply_that_is_cut_short_is_none()
    ensures { (bytes front : List ℕ) (head : ResponseHead) → IsReplyHead bytes head front → size_of head ≡ Some 2 → length front < 2
        → HasNoReply bytes }
{}

/// The head of a reply has 64 fields at most.
pub fn a_reply_has_64_fields_at_most()
    ensures all { (bytes rest : List ℕ) (head : ResponseHead) → ReadsResponse bytes head rest → length (print_response head) ≤ 16384
        → length head.fields ≡ 64 → IsReplyHead bytes head rest }
    ensures one_more { (bytes rest : List ℕ) (head : ResponseHead) → length head.fields ≡ 65 → ¬ (IsReplyHead bytes head rest) }
{}
