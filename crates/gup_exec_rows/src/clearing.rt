//! Fresh objects.
ghost use Rattle.std.specs.Prelude.{◌≡◌, ℕ, ◌+◌, ◌<◌, ◌^◌};
ghost use Rattle.gup_plain.specs.Put.{spread};
ghost use Rattle.gup_exec_parts.specs.Contents.{content_of};
ghost use Rattle.gup_exec_rows.specs.Clearing.{outside};

use gup_exec_parts::contents::Contents;

// Whether the object is none of the `n` from `first` on.
fn is_outside(first: u64, n: u64, object: u64) -> bool
    requires { first + n < 2 ^ 64 }
    ensures { result ≡ outside first n object }
{
    object < first || object >= first + n
}

/// Makes all words of the `n` objects from `first` on 0.
pub fn clear(contents: &mut Contents, first: u64, n: u64)
    requires { first + n < 2 ^ 64 }
    ensures content { content_of contents.new ≡ spread first n (λ _ _. 0) (content_of contents.old) }
    ensures made { contents.new.made ≡ contents.old.made }
{
    contents
        .words
        .retain(|object, _words| is_outside(first, n, *object));
}
