// Traces of generated plans under every pair, in both versions, whole and with one byte changed.
mod made;
