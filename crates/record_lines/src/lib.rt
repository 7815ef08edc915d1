// Theorems only: texts that are RFC 4180 records, each ended by CRLF; fields that need no quotes, numbers among them;
// and a refusal's line as a record.
#![tactic(auto)]
