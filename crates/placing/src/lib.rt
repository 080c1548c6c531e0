// Placements of lanes over a carriageway, what they are worth and which one is chosen: definitions and their consequences.
#![tactic(auto)]
