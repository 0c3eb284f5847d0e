//! What it means to take one step n times: a definition and its laws, which every layer above shares.

#![tactic(auto)]
