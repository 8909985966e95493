// A gate list taken backwards inverts what the list does, at the same cost and depth. Definitions and laws only, no code.
