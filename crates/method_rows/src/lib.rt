//! Tests of the classes of methods, through the public calls of lsp_method.
#![tactic(auto)]

#[cfg(test)]
mod methods;
