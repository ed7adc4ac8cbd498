//! What holds of the plain forms of words: a function with nothing in it, whose contract says so.
ghost use Rattle.std.specs.Prelude.{ℕ, List, [], ◌∷◌, ◌↔◌, Result, Ok, codes};
ghost use Rattle.sgb_expr.specs.declared.expressions.Expr.{Expr};
ghost use Rattle.sgb_expr.specs.declared.flips.FlipParams.{FlipParams};
ghost use Rattle.sgb_requests.specs.PlainWords.{AreOptions, IsFlipReadBy, IsPlain, IsQueenRead, IsReadBy};
ghost use Rattle.sgb_requests.specs.Reading.{IsFlipReadAs, IsReadAs};
ghost use Rattle.sgb_requests.specs.Requests.{IsCommandLineReadAs};
ghost use Rattle.sgb_requests.specs.declared.faults.Fault.{Fault};
ghost use Rattle.sgb_requests.specs.declared.requests.Request.{Request};
ghost use Rattle.sgb_requests.specs.declared.requests.Request.TheVariants as request;
ghost use Rattle.sgb_requests.specs.declared.requests.Resume.{Resume};

/// The plain forms of words, after the program's name, are read as these requests and as nothing else: `names EXPR`
/// and `list EXPR`, each alone, with `--after NAME` or with `--skip K`, `save EXPR`, `queen` and `flip TEXT`. EXPR, TEXT
/// and NAME do not begin with `-`, which no expression and no flip does, and K is 1 to 18 digits. Where EXPR or TEXT is
/// refused, the words are refused with the same fault; and they are refused when out of memory, and never else.
pub fn plain_words_law()
    ensures names { (program text : List ℕ) (options : List (List ℕ)) (resume : Resume)
        (result : Result Request Fault) → IsPlain text → AreOptions options resume
        → IsCommandLineReadAs (program ∷ codes "names" ∷ text ∷ options) result
        ↔ IsReadBy (λ e. request.Names e resume) text result }
    ensures list { (program text : List ℕ) (options : List (List ℕ)) (resume : Resume)
        (result : Result Request Fault) → IsPlain text → AreOptions options resume
        → IsCommandLineReadAs (program ∷ codes "list" ∷ text ∷ options) result
        ↔ IsReadBy (λ e. request.List e resume) text result }
    ensures save { (program text : List ℕ) (result : Result Request Fault) → IsPlain text
        → IsCommandLineReadAs (program ∷ codes "save" ∷ text ∷ []) result
        ↔ IsReadBy (λ e. request.Save e) text result }
    ensures queen { (program : List ℕ) (result : Result Request Fault)
        → IsCommandLineReadAs (program ∷ codes "queen" ∷ []) result ↔ IsQueenRead result }
    ensures flip { (program text : List ℕ) (result : Result Request Fault) → IsPlain text
        → IsCommandLineReadAs (program ∷ codes "flip" ∷ text ∷ []) result
        ↔ IsFlipReadBy text result }
    ensures expression { (text : List ℕ) (e : Expr) → IsReadAs text (Ok e) → IsPlain text }
    ensures flip_text { (text : List ℕ) (p : FlipParams) → IsFlipReadAs text (Ok p) → IsPlain text }
{}
