//! Laws of the requests that words make: each is the contract of a function that does nothing.

ghost use Rattle.std.specs.Prelude.{◌≡◌, ℕ, List, Some};
ghost use Rattle.asg_words.specs.declared.requests.Request.{Request};
ghost use Rattle.asg_words.specs.Bounds.{IsRequest};
ghost use Rattle.asg_words.specs.Requests.{request_of};

/// The numbers of a request that words make are within their bounds, and its options go together.
pub fn request_law()
    ensures { (words : List (List ℕ)) (request : Request) →
        request_of words ≡ Some request → IsRequest request }
{}
