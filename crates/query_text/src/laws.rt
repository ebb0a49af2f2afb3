// Laws of every text and of every query.
ghost use Rattle.std.specs.Prelude.{◌≡◌, ◌↔◌, ℕ, List, Ok, Err};
ghost use Rattle.leaf_model.specs.declared.queries.Query.{Query};
ghost use Rattle.row_model.specs.declared.query_fault.QueryFault.{QueryFault};
ghost use Rattle.query_text.specs.Tokens.{tokens_of};
ghost use Rattle.query_text.specs.Reading.{query_of};
ghost use Rattle.query_text.specs.Printing.{printed};
ghost use Rattle.query_text.specs.Grammar.{IsSpelled, IsQueryRefused, plain_tokens};

/// Law: a text is read as a query if and only if its tokens spell that query, part by part. It is refused at the first
/// token that no query goes on with, or at its end if more has to follow.
pub fn grammar_meaning()
    ensures spelled { (text : List ℕ) → (query : Query)
        → (query_of text ≡ Ok query) ↔ IsSpelled query (plain_tokens (tokens_of text)) }
    ensures refused { (text : List ℕ) → (fault : QueryFault) → query_of text ≡ Err fault → IsQueryRefused text fault }
{}

/// Law: if some text is read as a query, the text that the query is printed as is read as that query too.
#[tactic(auto, using(crate::proofs::Valid::read_back))]
pub fn print_reads_back()
    ensures back { (text : List ℕ) → (query : Query) → query_of text ≡ Ok query → query_of (printed query) ≡ Ok query }
{}
