// No functions: deblocking by bands. specs/ has what a band's lists are and what its call does to a picture, and proofs/ that the bands joined are the picture.
#![tactic(auto)]
