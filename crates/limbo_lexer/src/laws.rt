ghost use Rattle.limbo_lexer.specs.Tokens.{OneTokenList};

/// A text has at most one token list.
pub fn one_token_list()
    ensures { OneTokenList }
{}
